// SPDX-License-Identifier: Apache-2.0
//! The code that is run, with where it comes from.
use crate::answers::Origin;
use code_copier::{Blank, Template};
use hart_turns::Prepared;
use layout_epochs::Epochs;
use sh_types::Image;

/// The code that is run, with where it comes from: the template of the image, the newest layout, the one before it while
/// that is live, which was erased last, and the memory of a copy that was erased.
#[derive(Drop)]
pub struct Code {
    pub origin: Origin,
    pub image: Image,
    pub template: Template,
    pub epochs: Epochs,
    pub newest: Prepared,
    pub older: Option<Prepared>,
    pub wiped: Option<u64>,
    pub blank: Option<Blank>,
}
