// What a check is asked beside its three files. It goes from the job down to the walk as one value, so that a further term is a field here and no
// further parameter anywhere.
#![tactic(auto)]

// "allowance B (32 bits, unsigned)": at most so many members are examined.
#[derive(Clone, Copy)]
pub struct Terms {
    pub most: u32,
}
