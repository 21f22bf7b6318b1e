#![tactic(auto)]
// Is all there that the tuples of the used chain name.
// The check of a store has each tuple looked at as it walks the chain (`ends::take`), and asks after the walk.
// An inner layer: what its functions require, their callers have shown; only the entry refuses.
// By hand: facts about the lent words stand in no struct; chain says why.
mod edge_ends;
pub mod ends;
pub mod kept;
pub mod marks;
mod named;
mod seek;

ghost use Rattle.std.specs.Prelude.{◌≡◌};
ghost use Rattle.layouts.specs.Buffer.{tuples_of};
ghost use Rattle.model.specs.Rules.{every_key};
ghost use Rattle.presence.specs.Presence.{Sorted, supported, Decided};

use kept::KeptRecords;
use marks::Marks;

// Is all there that the tuples name, after the walk of the used chain.
// What the walk found can only say yes; where it does not, the whole chain is searched again, and the first edge tuple without both ends ends the check.
pub fn named_right(b: &[u32], marks: &Marks, kept: &KeptRecords, sure: bool) -> bool
    requires { Sorted b.now × Decided b.now marks.now.words kept.now sure }
    ensures { result ≡ every_key (supported (tuples_of b.now)) (tuples_of b.now) }
{
    sure && kept.all_ends(b, marks) || named::all_named(b) && edge_ends::edges_ended(b)
}
