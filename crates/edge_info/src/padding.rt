//! The padding.
ghost use Rattle.std.specs.Prelude.{◌≡◌};
ghost use Rattle.section_grammar.specs.Answers.{FailedCheck, Gives};
ghost use Rattle.edge_info.specs.InfoSets.{padding_at};

use section_grammar::{SectionFault, place};

/// The number of the check on the padding.
const PADDING_CHECK: u8 = 16;

/// Whether all bytes are zero, in a file that ends at the offset `end`; else the first that is not, by its offset.
#[tactic(auto, unfolding(crate::specs::InfoSets::padding_at))]
pub fn read_padding(end: u64, bytes: &[u8]) -> Result<(), SectionFault>
    ensures { Gives (λ _. tt) result (padding_at end bytes.now) }
{
    let mut rest = bytes;
    while let Some((first, after)) = rest.split_first() {
        if *first != 0 {
            return Err(SectionFault::Bad {
                check: PADDING_CHECK,
                at: place(end, rest),
            });
        }
        rest = after;
    }
    Ok(())
}
