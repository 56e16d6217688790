ghost use Rattle.std.specs.Prelude.{◌≡◌, ◌≤◌, length};
ghost use Rattle.quad_matrix.specs.Names.{what_name, what_of};
ghost use Rattle.quad_matrix.specs.Goals.{kind_at};

use cht_ids::Short;
use task_plans::Operation;
use task_types::{Kinds, kind_text};

/// What a task on matrices computes.
#[derive(Clone, Copy, Debug, PartialEq, Eq)]
pub enum What {
    /// The block of a list of entries.
    Assign,
    /// The sum of two blocks.
    Add,
    /// The product of two blocks, row by column.
    Mul,
    /// The product of the transpose of the first block with the second.
    TMul,
    /// The product of the first block with the transpose of the second.
    MulT,
    /// The block whose rows are the columns of another.
    Transpose,
    /// The block with four quadrants.
    Join,
    /// The sum of the numbers on the diagonal of a block.
    Trace,
    /// The sum of two numbers.
    AddNum,
    /// The symmetric block of a list of the entries of its upper triangle.
    SAssign,
    /// The sum of two symmetric blocks.
    SAdd,
    /// The square of a symmetric block.
    Square,
    /// The product of a block with its own transpose, a symmetric block.
    RankMul,
    /// The product of the transpose of a block with the block, a symmetric block.
    TRank,
    /// The product of a symmetric block with a general one.
    SMul,
    /// The product of a general block with a symmetric one.
    MulS,
    /// A symmetric block in general form.
    Full,
    /// The symmetric block with two symmetric blocks on its diagonal and a general one between them, whose transpose stands below.
    SJoin,
    /// The sum of the numbers on the diagonal of a symmetric block.
    STrace,
}

// All of them.
const ALL: [What; 19] = [
    What::Assign,
    What::Add,
    What::Mul,
    What::TMul,
    What::MulT,
    What::Transpose,
    What::Join,
    What::Trace,
    What::AddNum,
    What::SAssign,
    What::SAdd,
    What::Square,
    What::RankMul,
    What::TRank,
    What::SMul,
    What::MulS,
    What::Full,
    What::SJoin,
    What::STrace,
];

impl What {
    /// Its name, in ASCII.
    pub fn name(self) -> &'static [u8]
        ensures value { result.now ≡ what_name self }
        ensures few { length result.now ≤ 40 }
    {
        match self {
            What::Assign => b"assign",
            What::Add => b"add",
            What::Mul => b"mul",
            What::TMul => b"tmul",
            What::MulT => b"mult",
            What::Transpose => b"transpose",
            What::Join => b"join",
            What::Trace => b"trace",
            What::AddNum => b"addnum",
            What::SAssign => b"sassign",
            What::SAdd => b"sadd",
            What::Square => b"square",
            What::RankMul => b"rankmul",
            What::TRank => b"trank",
            What::SMul => b"smul",
            What::MulS => b"muls",
            What::Full => b"full",
            What::SJoin => b"sjoin",
            What::STrace => b"strace",
        }
    }

    /// What has this name; `None` where nothing has it.
    pub fn of_name(name: &[u8]) -> Option<What>
        ensures { result ≡ what_of name.now }
    {
        ALL.iter().copied().find(|what| what.name() == name)
    }
}

impl Operation for What {
    type Kind = MatKind;

    ghost kind_at = { kind_at };

    fn kind_at(self, height: u32) -> MatKind {
        let height = match self {
            What::Assign | What::Add | What::Mul | What::TMul | What::MulT => height,
            What::Transpose | What::Join | What::Trace => height,
            What::Square | What::RankMul | What::TRank | What::SMul | What::MulS => height,
            What::SAssign | What::SAdd | What::Full | What::SJoin | What::STrace => height,
            What::AddNum => 0,
        };
        MatKind { what: self, height }
    }
}

/// A kind of task: what it computes, and the height of its blocks; for `Join` and `SJoin` that of the block that is joined,
/// and 0 for `AddNum`.
#[derive(Clone, Copy, Debug, PartialEq, Eq)]
pub struct MatKind {
    pub what: What,
    pub height: u32,
}

impl Kinds for MatKind {
    ghost name_of = { λ kind. what_name kind.what };

    ghost height_of = { λ kind. kind.height };

    ghost use Rattle.quad_matrix.specs.Names.{names_named, kinds_differ};

    ghost named = { λ kind. names_named kind.what };

    ghost told_apart = { kinds_differ };

    fn text(&self) -> Short {
        kind_text(self.what.name(), self.height)
    }

    fn of_words(name: &[u8], height: u32) -> Option<MatKind> {
        let what = What::of_name(name)?;
        Some(MatKind { what, height })
    }
}
