// What the served instructions do, and how they access their operands.
ghost use Rattle.std.specs.Prelude.{◌≡◌};
ghost use Rattle.instruction.specs.Operations.{first_access, second_access, one_access};

// Instructions of two operands, by their mnemonics.
#[derive(Clone, Copy, PartialEq, Eq, Debug)]
pub enum TwoOperation {
    Mov,
    Movs,
    Movz,
    Movea,
    Add,
    Addc,
    Sub,
    Subc,
    Cmp,
    Neg,
    And,
    Or,
    Xor,
    Not,
    Shl,
    Sha,
    Rot,
}

// Instructions of one operand.
#[derive(Clone, Copy, PartialEq, Eq, Debug)]
pub enum OneOperation {
    Inc,
    Dec,
    Test,
    Push,
    Pop,
    Jmp,
    Jsr,
}

// Instructions on strings.
#[derive(Clone, Copy, PartialEq, Eq, Debug)]
pub enum StringOperation {
    Movc,
    Movcf,
    Movcs,
}

// How an instruction uses an operand. Of an address the operand itself is not accessed.
#[derive(Clone, Copy, PartialEq, Eq, Debug)]
pub enum Access {
    Read,
    Write,
    Modify,
    Address,
}

impl TwoOperation {
    pub fn first_access(self) -> Access
        ensures { result ≡ first_access self }
    {
        match self {
            TwoOperation::Movea => Access::Address,
            _ => Access::Read,
        }
    }

    pub fn second_access(self) -> Access
        ensures { result ≡ second_access self }
    {
        match self {
            TwoOperation::Mov
            | TwoOperation::Movs
            | TwoOperation::Movz
            | TwoOperation::Movea
            | TwoOperation::Neg
            | TwoOperation::Not => Access::Write,
            TwoOperation::Cmp => Access::Read,
            _ => Access::Modify,
        }
    }
}

impl OneOperation {
    pub fn access(self) -> Access
        ensures { result ≡ one_access self }
    {
        match self {
            OneOperation::Inc | OneOperation::Dec => Access::Modify,
            OneOperation::Test | OneOperation::Push => Access::Read,
            OneOperation::Pop => Access::Write,
            OneOperation::Jmp | OneOperation::Jsr => Access::Address,
        }
    }
}
