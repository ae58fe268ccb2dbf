// The circuit file of document 01, "Stored form": refusals 11 and 12 of a whole file. No public function has a `requires`: a file may be of any length.
#![tactic(auto)]

ghost use Rattle.std.specs.Prelude.{◌≡◌, ◌+◌, ◌/◌, ◌≤◌, length};
ghost use Rattle.stored.specs.Rules.{first_bad};
ghost use Rattle.gates.specs.Circuit.{gt_size, gates_most, gate_at, is_gate, records_of, judge_gates, judge_circuit, judge_one};
ghost use Rattle.refusals.specs.Refused.{judged, seen};
ghost use Rattle.circuitfile.specs.Faults.{gate_fault};

use circuits::{GT_SIZE, gate_at};
use refusals::{Reason, Refusal, Source};
use scans::{Records, first_bad};

// "up to 4,096 records"
const GATES_MOST: usize = 4096;

// What is wrong with the record at a place: that it is no gate.
fn fault_at(n: u8, s: &[u8], at: usize) -> Option<Reason>
    requires { at + gt_size ≤ length s.now }
    ensures { result ≡ gate_fault (gate_at n s.now at) }
{
    match gate_at(n, s, at) {
        Some(_) => None,
        None => Some(Reason::Gate),
    }
}

// The number, from 0, of the first record that is no gate; how many records there are where each is one.
pub fn first_wrong(n: u8, s: &[u8]) -> usize
    ensures { result ≡ first_bad is_gate (records_of n s.now) }
{
    let records = Records {
        at: 0,
        size: GT_SIZE,
        count: s.len() / GT_SIZE,
    };
    match first_bad(records, |at| fault_at(n, s, at)) {
        None => records.count,
        Some((i, _)) => i,
    }
}

// The records of a circuit that is not too long: 12 with the place of the first wrong one, from 1, or how many gates they are.
fn read_gates(s: &[u8], n: u8) -> Result<u16, Refusal>
    requires { length s.now / gt_size ≤ gates_most }
    ensures { judged result ≡ seen length (judge_gates n s.now) }
{
    let count = s.len() / GT_SIZE;
    let wrong = first_wrong(n, s);
    if wrong == count {
        return Ok(count as u16);
    }
    Err(Refusal {
        reason: Reason::Gate,
        source: Source::Circuit,
        place: wrong as u32 + 1,
    })
}

// A circuit of a length that no job takes.
const TOO_LONG: Refusal = Refusal {
    reason: Reason::CircuitLength,
    source: Source::Circuit,
    place: 0,
};

// A circuit of the check, its qubits held to n: 11 where its length is no multiple of 6 or it has over 4,096 gates, then 12, else how many
// gates it has. The empty circuit has none.
pub fn read_circuit(s: &[u8], n: u8) -> Result<u16, Refusal>
    ensures { judged result ≡ seen length (judge_circuit n s.now) }
{
    let ok = (s.len() % GT_SIZE == 0) & (s.len() / GT_SIZE <= GATES_MOST);
    if ok {
        return read_gates(s, n);
    }
    Err(TOO_LONG)
}

// The circuit of the one-gate job: 11 where it is not "exactly 6 bytes", then 12, else its one gate.
pub fn read_one(s: &[u8], n: u8) -> Result<u16, Refusal>
    ensures { judged result ≡ seen length (judge_one n s.now) }
{
    if s.len() == GT_SIZE {
        return read_gates(s, n);
    }
    Err(TOO_LONG)
}
