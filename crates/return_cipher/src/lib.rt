// SPDX-License-Identifier: Apache-2.0
//! The cipher of return words: an address is sealed for the slot that it lies in, under the key of a hart.
#![tactic(auto)]

ghost use Rattle.std.specs.Prelude.{◌≡◌, ℕ, ◌<◌, ◌^◌};
ghost use Rattle.sh_machines.specs.Cipher.{seal as seal_of, unseal as unseal_of};

/// The word that stands at the slot, an address of a multiple of 8, for this address of code, 0 for the root.
/// It takes no memory.
#[tactic(auto, unfolding(sh_machines::specs::Cipher::seal))]
pub fn seal(key: u64, slot: u64, address: u64) -> u64
    ensures { result ≡ seal_of key slot address }
{
    (address ^ key).rotate_left((slot / 8 % 64) as u32)
}

/// The address of code that a word at the slot was sealed for. It takes no memory.
#[tactic(auto, unfolding(sh_machines::specs::Cipher::unseal))]
pub fn unseal(key: u64, slot: u64, word: u64) -> u64
    ensures { result ≡ unseal_of key slot word }
{
    word.rotate_left(((64 - slot / 8 % 64) % 64) as u32) ^ key
}

/// Sealing and opening are inverse.
pub fn ciphers_open()
    ensures opens { (key slot address : ℕ) → key < 2 ^ 64 → address < 2 ^ 64 → unseal_of key slot (seal_of key slot address) ≡ address }
    ensures seals { (key slot word : ℕ) → key < 2 ^ 64 → word < 2 ^ 64 → seal_of key slot (unseal_of key slot word) ≡ word }
{}
