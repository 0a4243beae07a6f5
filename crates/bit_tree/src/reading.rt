//! Reading a whole input.

ghost use Rattle.std.specs.Prelude.{ℕ, List, IfOk};
ghost use Rattle.bit_grammar.specs.Forest.{Fit};
ghost use Rattle.bit_grammar.specs.Input.{tree_of, SpellsInput};
ghost use Rattle.bit_events.specs.Reading.{ReadsWhole};

use crate::marked::Marked;
use crate::marked_builder::MarkedBuilder;
use bit_events::fold;
use bit_fields::{Fault, Limits, Source};
use std::alloc::Global;

/// Reads an input as a marked tree, from the first byte that its source still has to the last.
///
/// It takes no byte past the first one after the limit on bytes. `Refused` has the one reason and bit at which the input breaks the
/// rules. The source is returned in its present state. Even if its bytes are not known, some bytes spell the marked tree.
pub fn read<S: Source>(alloc: Global, source: S, limits: Limits) -> (Result<Marked, Fault>, S)
    ensures whole { ReadsWhole (SpellsInput limits) limits (S.incoming source) result.0
        (S.incoming result.1) }
    ensures some { IfOk result.0 (λ marked. (bytes : List ℕ) × SpellsInput limits bytes marked) }
    ensures fit { IfOk result.0 (λ marked. Fit (tree_of marked)) }
{
    let (answer, source) = fold(alloc, source, limits, MarkedBuilder::new(alloc));
    match answer {
        Ok(folded) => {
            let marked = Marked {
                head: folded.head,
                blocks: folded.gatherer.finish(),
                after: folded.after,
            };
            (Ok(marked), source)
        }
        Err(fault) => (Err(fault), source),
    }
}
