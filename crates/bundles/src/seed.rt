//! The seed of a run that is played.

ghost use Rattle.std.specs.Prelude.{◌≡◌};
ghost use Rattle.bundles.specs.Seeds.{one_seed, seed_in, seed_of};
ghost use Rattle.bundles.specs.Views.{section_view};

use crate::counted::first_counted;
use crate::fault::BundleFault;
use crate::flaw::Flaw;
use crate::section::Section;
use texts::decimal_within;

/// The seed of a line.
fn seed_of(number: usize, line: &str) -> Result<u64, BundleFault>
    ensures { result ≡ seed_of number line.now }
{
    match decimal_within(line, u64::MAX) {
        Some(seed) => Ok(seed),
        None => Err(BundleFault::BadSeed(number, Flaw::Whole)),
    }
}

/// The seed of a section, a decimal number up to 2^64 - 1, which its one line that counts says.
/// BadSeed is answered with that line where it says none, with the second where there are two, and
/// with the line below the section's last where there is none.
#[tactic(auto, unfolding(crate::specs::Seeds::one_seed))]
pub fn seed_in(section: &Section<'_>) -> Result<u64, BundleFault>
    ensures { result ≡ seed_in (section_view section.now) }
{
    let Some(first) = first_counted(section) else {
        let below = section.first_line + section.count;
        return Err(BundleFault::BadSeed(below, Flaw::NoLine));
    };
    let seed = seed_of(first.number, first.line)?;
    match first_counted(&first.below) {
        Some(second) => Err(BundleFault::BadSeed(second.number, Flaw::Second)),
        None => Ok(seed),
    }
}
