#![tactic(auto)]
// The exact check of a store.
// By hand: facts about the lent words stand in no struct; chain says why.
mod chains;
mod keys;

ghost use Rattle.std.specs.Prelude.{◌&&◌, ◌≡◌};
ghost use Rattle.layouts.specs.Buffer.{tuples_of, is_store};
ghost use Rattle.model.specs.Rules.{sound};
ghost use Rattle.presence.specs.Presence.{Walkable};
ghost use Rattle.verify.specs.Checks.{links_right};

use presence::kept::KeptRecords;
use presence::marks::Marks;
use presence::named_right;

// Are the chains and the tuples of the used chain right; the marks and the kept records are local to one check.
fn records_right(b: &[u32]) -> bool
    requires { Walkable b.now }
    ensures { result ≡ (links_right b.now && sound (tuples_of b.now)) }
{
    let mut marks = Marks::new();
    let mut kept = KeptRecords::new();
    let Some(used) = keys::walk_used(b, &mut marks, &mut kept) else {
        return false;
    };
    chains::chains_right(b, used.walked, used.free) && named_right(b, &marks, &kept, used.sure)
}

// Is the buffer, of any length and with any words, a store.
pub fn is_store(buffer: &[u32]) -> bool
    ensures { result ≡ is_store buffer.now }
{
    chains::heads_fit(buffer) && records_right(buffer)
}
