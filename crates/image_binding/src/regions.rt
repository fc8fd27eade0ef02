// SPDX-License-Identifier: Apache-2.0
//! The readable bytes of a file: its segments without their code, with tokens put in, and the first stack.
ghost use Rattle.std.specs.Prelude.{◌≡◌, ◌∷◌, ◌++◌, [], ◌-◌, ◌<◌, ◌≤◌, All, IfOk, OnOk, length, map, replicate};
ghost use Rattle.std.specs.List.Sorted.{IsNonDecreasingBy};
ghost use Rattle.load_law.specs.Placed.{IsPlaced};
ghost use Rattle.elf_rules.specs.declared.elf.Head.{Head};
ghost use Rattle.elf_rules.specs.Bindable.{data_regions, piece, pieces, segment_bytes};
ghost use Rattle.image_rules.specs.declared.tokens.Token.{Token};
ghost use Rattle.image_rules.specs.Bound.{bound_region, bytes_by};
ghost use Rattle.sh_types.specs.Image.{first_stack};
ghost use Rattle.sh_types.specs.Limits.{stack_size};
ghost use Rattle.image_binding.specs.Binds.{IsNarrow};
ghost use Rattle.image_binding.specs.Order.{EndsLow, StartsFrom};

use crate::laying::lay;
use crate::order::codes_within;
use elf_rules::{Head, Segment};
use image_rules::Token;
use sh_types::limits::{STACK_END, STACK_SIZE, STACK_START};
use sh_types::{Bytes, Region};
use std::alloc::{AllocError, Global};

/// The bytes of a segment from one address up to another: those of the file, and zeros behind them.
#[tactic(auto, unfolding(elf_rules::specs::Bindable::segment_bytes))]
fn segment_bytes(
    alloc: Global,
    bytes: &[u8],
    segment: &Segment,
    from: u64,
    to: u64,
) -> Result<Vec<u8>, AllocError>
    requires placed { IsPlaced bytes.now segment.now }
    requires from { segment.now.start ≤ from }
    requires order { from < to }
    ensures bytes { IfOk result (λ all. all.items ≡ segment_bytes bytes.now segment.now from to) }
    ensures many { IfOk result (λ all. length all.items ≡ to - from) }
{
    let size = (to - from) as usize;
    let end = to.min(segment.start + segment.file_size);
    let mut all = Vec::with_capacity(alloc, size)?;
    if from < end {
        let place = (segment.file_at + (from - segment.start)) as usize;
        all.extend_from_slice(&bytes[place..place + (end - from) as usize])?;
    }
    all.resize(size, 0)?;
    Ok(all)
}

/// The same with the tokens that stand there.
fn bound_bytes(
    alloc: Global,
    bytes: &[u8],
    tokens: &[Token],
    segment: &Segment,
    from: u64,
    to: u64,
) -> Result<Bytes, AllocError>
    requires placed { IsPlaced bytes.now segment.now }
    requires from { segment.now.start ≤ from }
    requires order { from < to }
    requires narrow { All IsNarrow tokens.now }
    requires rise { IsNonDecreasingBy (λ (t : Token). t.place) tokens.now }
    ensures { IfOk result (λ all. all ≡ bytes_by tokens.now from (segment_bytes bytes.now segment.now from to)) }
{
    let mut all = segment_bytes(alloc, bytes, segment, from, to)?;
    lay(tokens, from, &mut all);
    Ok(Bytes::from_vec(all))
}

/// Adds the part of a segment from one address up to another, if there is a byte.
#[tactic(auto, unfolding(image_rules::specs::Bound::bound_region))]
fn add_piece(
    alloc: Global,
    bytes: &[u8],
    tokens: &[Token],
    segment: &Segment,
    from: u64,
    to: u64,
    regions: &mut Vec<Region>,
) -> Result<(), AllocError>
    requires placed { IsPlaced bytes.now segment.now }
    requires from { segment.now.start ≤ from }
    requires narrow { All IsNarrow tokens.now }
    requires token_order { IsNonDecreasingBy (λ (t : Token). t.place) tokens.now }
    ensures { OnOk result (regions.new.items ≡ regions.old.items ++ map (bound_region tokens.now) (piece bytes.now segment.now from to)) }
{
    if from < to {
        regions.push(Region {
            start: from,
            end: to,
            writable: segment.writable,
            bytes: bound_bytes(alloc, bytes, tokens, segment, from, to)?,
        })?;
    }
    Ok(())
}

/// Adds the parts of a segment that lie in none of the sections, which start in it and are in order.
fn add_pieces(
    alloc: Global,
    bytes: &[u8],
    tokens: &[Token],
    segment: &Segment,
    codes: &[Head],
    regions: &mut Vec<Region>,
) -> Result<(), AllocError>
    requires placed { IsPlaced bytes.now segment.now }
    requires inside { All (StartsFrom segment.now.start) codes.now }
    requires low { All EndsLow codes.now }
    requires narrow { All IsNarrow tokens.now }
    requires token_order { IsNonDecreasingBy (λ (t : Token). t.place) tokens.now }
    ensures { OnOk result (regions.new.items ≡ regions.old.items ++ map (bound_region tokens.now) (pieces bytes.now segment.now segment.now.start codes.now)) }
{
    let mut from = segment.start;
    for code in codes {
        add_piece(alloc, bytes, tokens, segment, from, code.start, regions)?;
        from = code.start + code.size;
    }
    add_piece(
        alloc,
        bytes,
        tokens,
        segment,
        from,
        segment.start + segment.size,
        regions,
    )
}

/// The parts of the segments that hold no code, by segments and sections in order.
fn data_regions(
    alloc: Global,
    bytes: &[u8],
    tokens: &[Token],
    codes: &[Head],
    segments: &[Segment],
) -> Result<Vec<Region>, AllocError>
    requires placed { All (IsPlaced bytes.now) segments.now }
    requires rise { IsNonDecreasingBy (λ (h : Head). h.start) codes.now }
    requires low { All EndsLow codes.now }
    requires narrow { All IsNarrow tokens.now }
    requires token_order { IsNonDecreasingBy (λ (t : Token). t.place) tokens.now }
    ensures { IfOk result (λ regions. regions.items ≡ map (bound_region tokens.now) (data_regions bytes.now codes.now segments.now)) }
{
    let mut regions = Vec::new(alloc);
    for segment in segments {
        let inside = codes_within(segment, codes);
        add_pieces(alloc, bytes, tokens, segment, inside, &mut regions)?;
    }
    Ok(regions)
}

fn zeros(alloc: Global, count: usize) -> Result<Bytes, AllocError>
    ensures { IfOk result (λ bytes. bytes ≡ replicate count 0) }
{
    Ok(Bytes::from_vec(vec![in alloc; 0u8; count]?))
}

/// The first stack.
fn stack(alloc: Global, size: usize) -> Result<Region, AllocError>
    requires { size ≡ stack_size }
    ensures { IfOk result (λ region. region ≡ first_stack) }
{
    Ok(Region {
        start: STACK_START,
        end: STACK_END,
        writable: true,
        bytes: zeros(alloc, size)?,
    })
}

/// The readable bytes, by segments and sections in order, and the first stack behind them.
pub fn all_regions(
    alloc: Global,
    bytes: &[u8],
    tokens: &[Token],
    codes: &[Head],
    segments: &[Segment],
) -> Result<Vec<Region>, AllocError>
    requires placed { All (IsPlaced bytes.now) segments.now }
    requires rise { IsNonDecreasingBy (λ (h : Head). h.start) codes.now }
    requires low { All EndsLow codes.now }
    requires narrow { All IsNarrow tokens.now }
    requires token_order { IsNonDecreasingBy (λ (t : Token). t.place) tokens.now }
    ensures { IfOk result (λ regions. regions.items ≡ map (bound_region tokens.now) (data_regions bytes.now codes.now segments.now) ++ first_stack ∷ []) }
{
    let mut regions = data_regions(alloc, bytes, tokens, codes, segments)?;
    regions.push(stack(alloc, STACK_SIZE)?)?;
    Ok(regions)
}
