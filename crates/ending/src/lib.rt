// Document 01, "What each gate builds", at the leaves: the LF records of the last level, written into the rest of a lent table. The table read
// is not changed. Leaves over the most that may be end the walk, with None; a coefficient out of its range does not, since refusal 14 comes
// before 16.
#![tactic(auto)]

ghost use Rattle.std.specs.Prelude.{◌≡◌, ℕ, ◌+◌, ◌-◌, ◌≤◌, ◌<◌, length, get_or, take};
ghost use Rattle.amplitude.specs.Leaf.{turn};
ghost use Rattle.automata.specs.Choice.{map_alt, together};
ghost use Rattle.gates.specs.Roles.{pair_end};
ghost use Rattle.gates.specs.Numbering as numbering;
ghost use Rattle.lookup.specs.Alts.{leaf_alts};
ghost use Rattle.ending.specs.Ends.{ends_of};
ghost use Rattle.roles.specs.Kept.{side_is};
ghost use Rattle.endrow.specs.Ended.{LentIn, EndedIn};
ghost use Rattle.ending.specs.Source.{Leaves, Distinct, LeafKey};

use endrow::{NewLeaves, grown, joined_leaves, turned_leaf};
use lookup::union_of;
use pairing::pick_both;
use roles::{Key, Side};
use tables::Table;

// The records of a state that has those of the rows from `from` up to below `to`, each times ω^shift.
fn end_single(
    old: &Table,
    from: u16,
    to: u16,
    shift: u8,
    k: u8,
    leaves: &mut NewLeaves,
    state: u16,
) -> Option<()>
    requires source { Leaves old.now.rows.now old.now.masks.now old.now.coefs.now k from to }
    requires lent { LentIn leaves.old }
    ensures { EndedIn leaves.old
        (numbering.rows state (map_alt (turn shift) (leaf_alts old.now.rows.now old.now.masks.now old.now.coefs.now from (to - from))))
        leaves.new result }
{
    for i in from..to {
        let x = turned_leaf(old, i, shift);
        leaves.put(state, old.masks[i as usize], k as u16, x)?;
    }
    Some(())
}

// The records of a pair: "one transition for each two transitions whose masks meet, with the intersection as mask", in order of least choice.
// Its states have the rows from `qfrom` up to below `qto` and from `pfrom` up to below `pto`. "k grows by one."
fn end_pair(
    old: &Table,
    qfrom: u16,
    qto: u16,
    pfrom: u16,
    pto: u16,
    side: Side,
    k: u8,
    leaves: &mut NewLeaves,
    state: u16,
) -> Option<()>
    requires source { Leaves old.now.rows.now old.now.masks.now old.now.coefs.now k qfrom qto × Leaves old.now.rows.now old.now.masks.now old.now.coefs.now k pfrom pto }
    requires distinct { Distinct (leaf_alts old.now.rows.now old.now.masks.now old.now.coefs.now qfrom (qto - qfrom))
        × Distinct (leaf_alts old.now.rows.now old.now.masks.now old.now.coefs.now pfrom (pto - pfrom)) }
    requires lent { LentIn leaves.old }
    ensures { EndedIn leaves.old
        (numbering.rows state (together (pair_end (side_is side))
        (leaf_alts old.now.rows.now old.now.masks.now old.now.coefs.now qfrom (qto - qfrom))
        (leaf_alts old.now.rows.now old.now.masks.now old.now.coefs.now pfrom (pto - pfrom))))
        leaves.new result }
{
    let up = grown(k);
    let mut left = union_of(old.masks, qfrom, qto) & union_of(old.masks, pfrom, pto);
    for _step in 0..32u8 {
        if left == 0 {
            break;
        }
        let m = pick_both(old.masks, qfrom, qto, pfrom, pto, left);
        let x = joined_leaves(old, m.i, m.j, side);
        leaves.put(state, m.mask, up, x)?;
        left ^= m.mask;
    }
    Some(())
}

// The records of the state that a stored key names.
fn end_state(old: &Table, key: u64, k: u8, leaves: &mut NewLeaves, state: u16) -> Option<()>
    requires leaf_key { LeafKey old.now.rows.now old.now.masks.now old.now.coefs.now old.now.first.now k key }
    requires lent { LentIn leaves.old }
    ensures { EndedIn leaves.old
        (numbering.rows state (ends_of old.now.rows.now old.now.masks.now old.now.coefs.now old.now.first.now key))
        leaves.new result }
{
    match Key::unstored(key) {
        Key::One(how, q) => {
            let from = old.first[q as usize];
            let to = old.first[q as usize + 1];
            end_single(old, from, to, how.shift(), k, leaves, state)
        }
        Key::Pair(side, q, p) => {
            let qfrom = old.first[q as usize];
            let qto = old.first[q as usize + 1];
            let pfrom = old.first[p as usize];
            let pto = old.first[p as usize + 1];
            end_pair(old, qfrom, qto, pfrom, pto, side, k, leaves, state)
        }
    }
}

// The LF records of a last level whose states are the first `count` keys of `cur`, numbered from `base` on.
pub fn end_level(
    old: &Table,
    cur: &[u64],
    count: u16,
    base: u16,
    k: u8,
    leaves: &mut NewLeaves,
) -> Option<()>
    requires count_in_bounds { (count ≤ length cur.now) × (base + count < 65536) }
    requires by_index { (i : ℕ) → i < count → LeafKey old.now.rows.now old.now.masks.now old.now.coefs.now old.now.first.now k (get_or cur.now i 0) }
    requires lent { LentIn leaves.old }
    ensures ended { EndedIn leaves.old
        (numbering.all_rows (ends_of old.now.rows.now old.now.masks.now old.now.coefs.now old.now.first.now) base (take count cur.now))
        leaves.new result }
    ensures same_rows { leaves.new.rows.ghost_name ≡ leaves.old.rows.ghost_name }
    ensures same_masks { leaves.new.masks.ghost_name ≡ leaves.old.masks.ghost_name }
    ensures same_coefs { leaves.new.coefs.ghost_name ≡ leaves.old.coefs.ghost_name }
{
    for i in 0..count {
        end_state(old, cur[i as usize], k, leaves, base + i)?;
    }
    Some(())
}
