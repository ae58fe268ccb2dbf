// Document 01, replies 14 to 16: what building left of a gate's set is judged, "gate by gate 15, 14, 16 .. (earliest first)", and the set so far
// after it. Each test is made once and one function picks the number, so their order stands in one place.
#![tactic(auto)]

ghost use Rattle.std.specs.Prelude.{◌≡◌, true, ◌+◌, ◌<◌, leb, Some};
ghost use Rattle.amplitude.specs.Leaf.{k_most};
ghost use Rattle.stored.specs.Refusal.{refusal, circuit_source};
ghost use Rattle.gates.specs.Build.{growth};
ghost use Rattle.circuits.specs.Answer.{gate_is, kind_is};
ghost use Rattle.refusals.specs.Refused.{number_of, told, judged};
ghost use Rattle.tables.specs.Unpack.{Begun};
ghost use Rattle.building.specs.declared.Outcome.{Outcome};
ghost use Rattle.settling.specs.Result.{kind_growth, made_of, ordered, picked, next_of};
ghost use Rattle.settling.specs.Standing.{Indexable};

use building::Outcome;
use circuits::{Gate, Kind};
use refusals::{Reason, Refusal, Source};
use setfile::{Form, K_MOST};
use tables::fill_first;

// The image so far: the numbers of the set, and whether the second table holds it.
#[derive(Clone, Copy)]
pub struct Image {
    pub form: Form,
    pub second: bool,
}

impl Image {
    // The image after a gate: the set that it made, in the other table, or its refusal.
    pub fn next(self, made: Result<Form, Refusal>) -> Result<Image, Refusal>
        ensures { result ≡ next_of self made }
    {
        Ok(Image {
            form: made?,
            second: !self.second,
        })
    }
}

// By how much a kind of one qubit lets k grow.
fn kind_growth(k: Kind) -> u8
    ensures { result ≡ kind_growth (kind_is k) }
{
    match k {
        Kind::H => 1,
        _ => 0,
    }
}

// By how much a gate lets k grow: H "k grows by one".
pub fn growth_of(g: Gate) -> u8
    ensures { result ≡ growth (gate_is g) }
{
    match g {
        Gate::Plain(k, _) => kind_growth(k),
        Gate::Controlled(_, _, _) => 0,
    }
}

// A refusal whose source is the circuit.
fn refused(reason: Reason, place: u32) -> Refusal
    ensures { told result ≡ refusal (number_of reason) circuit_source place }
{
    Refusal {
        reason,
        source: Source::Circuit,
        place,
    }
}

// "gate by gate 15, 14, 16": the first of them that k, the sizes or the leaves are refused by.
fn judge(k: bool, sizes: bool, leaves: bool, place: u32) -> Result<(), Refusal>
    ensures { judged result ≡ ordered k sizes leaves place }
{
    if !k {
        return Err(refused(Reason::Scale, place));
    }
    if !sizes {
        return Err(refused(Reason::Sizes, place));
    }
    if !leaves {
        return Err(refused(Reason::Coefficients, place));
    }
    Ok(())
}

// What building left is judged: "gate by gate 15, 14, 16". Where it is a set, the row where each state's records begin is found.
pub fn settle(
    form: Form,
    grown: u8,
    place: u32,
    built: Option<Outcome>,
    rows: &[u16],
    first: &mut [u16],
) -> Result<Form, Refusal>
    requires grown_bound { form.k + grown < 256 }
    requires indexable { leb (form.k + grown) k_most ≡ true → (r : Outcome) → built ≡ Some r → r.fits ≡ true
        → Indexable rows.now first.old (made_of form.n (form.k + grown) r) }
    ensures value { judged result ≡ picked (leb (form.k + grown) k_most) built place form.n (form.k + grown) }
    ensures begun { leb (form.k + grown) k_most ≡ true → (r : Outcome) → built ≡ Some r → r.fits ≡ true
        → Begun rows.now (r.inner + r.leaves) (r.states + 1) first.new }
{
    let k = form.k + grown;
    let small = k <= K_MOST;
    let fits = built.is_some_and(|r| r.fits);
    judge(small, built.is_some(), fits, place)?;
    let r = built.unwrap();
    let made = Form {
        n: form.n,
        k,
        states: r.states,
        inner: r.inner,
        leaves: r.leaves,
    };
    fill_first(rows, made.inner + made.leaves, made.states, first);
    Ok(made)
}
