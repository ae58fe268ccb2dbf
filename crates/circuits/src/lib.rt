// The circuit file of document 01, "Stored form": which gate a record is. `gate_at` asks only that its record's six bytes are there.
#![tactic(auto)]

ghost use Rattle.std.specs.Prelude.{◌≡◌, ◌&&◌, not, ◌+◌, ◌≤◌, length, eqb};
ghost use Rattle.gates.specs.Circuit.{gt_size, kind_of, is_qubit, alone, gate_of, gate_at};
ghost use Rattle.circuits.specs.Answer.{kind_told, gate_told};
ghost use Rattle.circuits.specs.Bytes.{gate_of_bytes};

// "records of 6 bytes"
pub const GT_SIZE: usize = 6;

// The codes of two qubits, as a record's byte has them; `Gate` says what they mean.
const CX: u8 = 9;

const CZ: u8 = 10;

// Phase j is Z for j = 4, S 2, S† 6, T 1, T† 7; flip j is X for j = 0 and Y for j = 2.
#[derive(Clone, Copy, PartialEq, Eq)]
pub enum Kind {
    Phase(u8),
    Flip(u8),
    H,
}

// "a gate is plain with its kind, or controlled with its control and kind": the last number is the target, the first of `Controlled`
// the control. Qubits count from 1.
#[derive(Clone, Copy, PartialEq, Eq)]
pub enum Gate {
    Plain(Kind, u8),
    Controlled(u8, Kind, u8),
}

// The kind of a gate on one qubit: codes 1 to 8.
fn kind_of(code: u8) -> Option<Kind>
    ensures { kind_told result ≡ kind_of code }
{
    match code {
        1 => Some(Kind::Flip(0)),
        2 => Some(Kind::Flip(2)),
        3 => Some(Kind::Phase(4)),
        4 => Some(Kind::H),
        5 => Some(Kind::Phase(2)),
        6 => Some(Kind::Phase(6)),
        7 => Some(Kind::Phase(1)),
        8 => Some(Kind::Phase(7)),
        _ => None,
    }
}

// Qubits are 1 to n.
fn is_qubit(n: u8, q: u8) -> bool
    ensures { result ≡ is_qubit n q }
{
    (1 <= q) & (q <= n)
}

// A control is "a qubit other than the target".
fn may_control(n: u8, target: u8, control: u8) -> bool
    ensures { result ≡ (is_qubit n control && not (eqb control target)) }
{
    is_qubit(n, control) & (control != target)
}

// The gate of a code on one qubit: "Control is 0 for codes 1 to 8".
fn gate_alone(code: u8, target: u8, control: u8) -> Option<Gate>
    ensures { gate_told result ≡ alone target control (kind_of code) }
{
    let kind = kind_of(code)?;
    (control == 0).then_some(Gate::Plain(kind, target))
}

// The gate of a code, for a target that is a qubit. Of CZ's two qubits "the smaller qubit is the control".
fn gate_by_code(n: u8, code: u8, target: u8, control: u8) -> Option<Gate>
    ensures { gate_told result ≡ gate_of n code target control }
{
    let ok = may_control(n, target, control);
    match code {
        CX => ok.then_some(Gate::Controlled(control, Kind::Flip(0), target)),
        CZ => {
            let first = control.min(target);
            let second = control.max(target);
            ok.then_some(Gate::Controlled(first, Kind::Phase(4), second))
        }
        _ => gate_alone(code, target, control),
    }
}

// The gate of a record's six bytes, with qubits held to n: "GT, code, target, control, zero".
pub fn gate_of(
    n: u8,
    mark0: u8,
    mark1: u8,
    code: u8,
    target: u8,
    control: u8,
    last: u8,
) -> Option<Gate>
    ensures { gate_told result ≡ gate_of_bytes n mark0 mark1 code target control last }
{
    let ok = ((mark0 == b'G') & (mark1 == b'T')) & (is_qubit(n, target) & (last == 0));
    if ok {
        return gate_by_code(n, code, target, control);
    }
    None
}

// The gate of the record at a place.
pub fn gate_at(n: u8, s: &[u8], at: usize) -> Option<Gate>
    requires { at + gt_size ≤ length s.now }
    ensures { gate_told result ≡ gate_at n s.now at }
{
    gate_of(
        n,
        s[at],
        s[at + 1],
        s[at + 2],
        s[at + 3],
        s[at + 4],
        s[at + 5],
    )
}
