/// The operators of the Lola profile, one for each row of the operator table: bitwise logic, sum
/// and difference modulo 2 to the width, relations without sign, choice, shifts and rotation.
#[derive(Clone, Copy, Debug, PartialEq, Eq)]
pub enum Op {
    Not,
    And,
    Or,
    Xor,
    Add,
    Sub,
    Eq,
    Ne,
    Lt,
    Le,
    Gt,
    Ge,
    Mux,
    Shl,
    Shr,
    Asr,
    Ror,
}
