//! Numbers that are mixed from a seed.

ghost use Rattle.std.specs.Prelude.{◌≡◌, ◌≤◌};
ghost use Rattle.pipe_gen.specs.Choices.{choice, mixed};
ghost use Rattle.pipe_gen.specs.declared.choices.TheConstants as choices;

/// The number of values of a choice.
pub const CHOICE_VALUES: u32 = 65_536;
/// The greatest seed.
pub const MOST_SEED: u32 = 65_535;
/// The greatest index of a choice.
pub const MOST_INDEX: u32 = 65_536;

/// The factor of a seed.
pub const SEED_FACTOR: u32 = 40_503;
/// The factor of an index.
pub const INDEX_FACTOR: u32 = 25_173;
/// The factor between the two mixings.
pub const MIX_FACTOR: u32 = 29_573;
/// The number of values of a byte.
pub const BYTE_VALUES: u32 = 256;

// Mixes the upper byte of a number below 65,536 into its lower byte.
fn mixed(number: u32) -> u32
    ensures { result ≡ mixed number }
{
    number ^ (number / BYTE_VALUES)
}

/// Returns choice `index` of a seed, a number below 65,536. It depends on the two alone, and on no
/// other choice. The seed is at most 65,535; indices count from 1, and are at most 65,536.
pub fn choice(seed: u32, index: u32) -> u32
    requires seed { seed ≤ choices.MOST_SEED }
    requires index { index ≤ choices.MOST_INDEX }
    ensures value { result ≡ choice seed index }
{
    let sum = u64::from(SEED_FACTOR) * u64::from(seed) + u64::from(INDEX_FACTOR) * u64::from(index);
    let first = mixed((sum % u64::from(CHOICE_VALUES)) as u32);
    let product = u64::from(MIX_FACTOR) * u64::from(first);
    mixed((product % u64::from(CHOICE_VALUES)) as u32)
}
