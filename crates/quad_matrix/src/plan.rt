ghost use Rattle.std.specs.Prelude.{◌≡◌};
ghost use Rattle.quad_matrix.specs.Plans.{plan_of};

use crate::kind::What;
use task_plans::{Ending, Part, Term};
use task_types::{Place, Places};

// The product of a child of the first input with a child of the second.
macro_rules! factors {
    ($what:expr, $first:expr, $second:expr) => {
        Term {
            what: $what,
            inputs: Places {
                count: 2,
                first: Place::Child(0, $first),
                second: Place::Child(1, $second),
                third: Place::Null,
                fourth: Place::Null,
            },
        }
    };
}

// A quadrant of a product: the sum of the products of two pairs of children.
macro_rules! quadrant {
    ($what:expr, $first:expr, $second:expr; $third:expr, $fourth:expr) => {
        Part::Pair {
            first: factors!($what, $first, $second),
            second: factors!($what, $third, $fourth),
            sum: What::Add,
        }
    };
}

// The product of two children of the first input.
macro_rules! children {
    ($what:expr, $first:expr, $second:expr) => {
        Term {
            what: $what,
            inputs: Places {
                count: 2,
                first: Place::Child(0, $first),
                second: Place::Child(0, $second),
                third: Place::Null,
                fourth: Place::Null,
            },
        }
    };
}

// A quadrant that is the sum of two terms.
macro_rules! terms {
    ($first:expr, $second:expr, $sum:expr) => {
        Part::Pair {
            first: $first,
            second: $second,
            sum: $sum,
        }
    };
}

// A task on one child of the inputs.
macro_rules! term {
    ($what:expr, $first:expr) => {
        Term {
            what: $what,
            inputs: Places {
                count: 1,
                first: $first,
                second: Place::Null,
                third: Place::Null,
                fourth: Place::Null,
            },
        }
    };
}

// The entries of a block in one quadrant, of which they tell all or the upper triangle alone.
macro_rules! portion {
    ($what:expr, $quadrant:expr, $symmetric:expr) => {
        Part::Portion {
            what: $what,
            number: $quadrant,
            symmetric: $symmetric,
        }
    };
}

// The children of two blocks with one number.
macro_rules! either {
    ($what:expr, $child:expr) => {
        Part::Either {
            what: $what,
            child: $child,
        }
    };
}

// The entries in each quadrant.
const ASSIGN: [Part<What>; 4] = [
    portion!(What::Assign, 0, false),
    portion!(What::Assign, 1, false),
    portion!(What::Assign, 2, false),
    portion!(What::Assign, 3, false),
];

// The sum of the children with each number.
const ADD: [Part<What>; 4] = [
    either!(What::Add, 0),
    either!(What::Add, 1),
    either!(What::Add, 2),
    either!(What::Add, 3),
];

// The products of both blocks as they are.
const MUL: [Part<What>; 4] = [
    quadrant!(What::Mul, 0, 0; 1, 2),
    quadrant!(What::Mul, 0, 1; 1, 3),
    quadrant!(What::Mul, 2, 0; 3, 2),
    quadrant!(What::Mul, 2, 1; 3, 3),
];

// Those with the first block transposed.
const TMUL: [Part<What>; 4] = [
    quadrant!(What::TMul, 0, 0; 2, 2),
    quadrant!(What::TMul, 0, 1; 2, 3),
    quadrant!(What::TMul, 1, 0; 3, 2),
    quadrant!(What::TMul, 1, 1; 3, 3),
];

// Those with the second block transposed.
const MULT: [Part<What>; 4] = [
    quadrant!(What::MulT, 0, 0; 1, 1),
    quadrant!(What::MulT, 0, 2; 1, 3),
    quadrant!(What::MulT, 2, 0; 3, 1),
    quadrant!(What::MulT, 2, 2; 3, 3),
];

// The transposes of the children, the two beside the diagonal exchanged.
const TRANSPOSE: [Part<What>; 4] = [
    Part::Alone(term!(What::Transpose, Place::Child(0, 0))),
    Part::Alone(term!(What::Transpose, Place::Child(0, 2))),
    Part::Alone(term!(What::Transpose, Place::Child(0, 1))),
    Part::Alone(term!(What::Transpose, Place::Child(0, 3))),
];

// The traces of the quadrants on the diagonal.
const TRACE: [Part<What>; 1] = [Part::Pair {
    first: term!(What::Trace, Place::Child(0, 0)),
    second: term!(What::Trace, Place::Child(0, 3)),
    sum: What::AddNum,
}];

// The entries in the quadrants on the diagonal and above it.
const SASSIGN: [Part<What>; 3] = [
    portion!(What::SAssign, 0, true),
    portion!(What::Assign, 1, false),
    portion!(What::SAssign, 3, true),
];

// The sums of the symmetric children, and of the general ones between them.
const SADD: [Part<What>; 3] = [
    either!(What::SAdd, 0),
    either!(What::Add, 1),
    either!(What::SAdd, 2),
];

// [A B; Bᵀ C] squared: A² + B Bᵀ, A B + B C, and Bᵀ B + C².
const SQUARE: [Part<What>; 3] = [
    terms!(
        term!(What::Square, Place::Child(0, 0)),
        term!(What::RankMul, Place::Child(0, 1)),
        What::SAdd
    ),
    terms!(
        children!(What::SMul, 0, 1),
        children!(What::MulS, 1, 2),
        What::Add
    ),
    terms!(
        term!(What::TRank, Place::Child(0, 1)),
        term!(What::Square, Place::Child(0, 2)),
        What::SAdd
    ),
];

// Products of the quadrants' rows with their own transposes, and with each other's.
const RANK_MUL: [Part<What>; 3] = [
    terms!(
        term!(What::RankMul, Place::Child(0, 0)),
        term!(What::RankMul, Place::Child(0, 1)),
        What::SAdd
    ),
    terms!(
        children!(What::MulT, 0, 2),
        children!(What::MulT, 1, 3),
        What::Add
    ),
    terms!(
        term!(What::RankMul, Place::Child(0, 2)),
        term!(What::RankMul, Place::Child(0, 3)),
        What::SAdd
    ),
];

// The same of the quadrants' columns.
const TRANK: [Part<What>; 3] = [
    terms!(
        term!(What::TRank, Place::Child(0, 0)),
        term!(What::TRank, Place::Child(0, 2)),
        What::SAdd
    ),
    terms!(
        children!(What::TMul, 0, 1),
        children!(What::TMul, 2, 3),
        What::Add
    ),
    terms!(
        term!(What::TRank, Place::Child(0, 1)),
        term!(What::TRank, Place::Child(0, 3)),
        What::SAdd
    ),
];

// [A B; Bᵀ C] times a general block.
const SMUL: [Part<What>; 4] = [
    terms!(
        factors!(What::SMul, 0, 0),
        factors!(What::Mul, 1, 2),
        What::Add
    ),
    terms!(
        factors!(What::SMul, 0, 1),
        factors!(What::Mul, 1, 3),
        What::Add
    ),
    terms!(
        factors!(What::TMul, 1, 0),
        factors!(What::SMul, 2, 2),
        What::Add
    ),
    terms!(
        factors!(What::TMul, 1, 1),
        factors!(What::SMul, 2, 3),
        What::Add
    ),
];

// A general block times [A B; Bᵀ C].
const MULS: [Part<What>; 4] = [
    terms!(
        factors!(What::MulS, 0, 0),
        factors!(What::MulT, 1, 1),
        What::Add
    ),
    terms!(
        factors!(What::Mul, 0, 1),
        factors!(What::MulS, 1, 2),
        What::Add
    ),
    terms!(
        factors!(What::MulS, 2, 0),
        factors!(What::MulT, 3, 1),
        What::Add
    ),
    terms!(
        factors!(What::Mul, 2, 1),
        factors!(What::MulS, 3, 2),
        What::Add
    ),
];

// The symmetric children in general form, and the one between them with its transpose.
const FULL: [Part<What>; 4] = [
    Part::Alone(term!(What::Full, Place::Child(0, 0))),
    Part::Itself { input: 0, child: 1 },
    Part::Alone(term!(What::Transpose, Place::Child(0, 1))),
    Part::Alone(term!(What::Full, Place::Child(0, 2))),
];

// The traces of the symmetric children.
const STRACE: [Part<What>; 1] = [Part::Pair {
    first: term!(What::STrace, Place::Child(0, 0)),
    second: term!(What::STrace, Place::Child(0, 2)),
    sum: What::AddNum,
}];

impl What {
    /// The parts of its plan, in order: what a kind of height at least 1 asks where all its inputs are there.
    pub fn parts(self) -> &'static [Part<What>]
        ensures { result.now ≡ (plan_of self).parts }
    {
        match self {
            What::Assign => &ASSIGN,
            What::Add => &ADD,
            What::Mul => &MUL,
            What::TMul => &TMUL,
            What::MulT => &MULT,
            What::Transpose => &TRANSPOSE,
            What::Trace => &TRACE,
            What::SAssign => &SASSIGN,
            What::SAdd => &SADD,
            What::Square => &SQUARE,
            What::RankMul => &RANK_MUL,
            What::TRank => &TRANK,
            What::SMul => &SMUL,
            What::MulS => &MULS,
            What::Full => &FULL,
            What::STrace => &STRACE,
            What::Join | What::SJoin | What::AddNum => &[],
        }
    }

    /// How the places of the parts become the result.
    pub fn ending(self) -> Ending<What>
        ensures { result ≡ (plan_of self).ending }
    {
        match self {
            What::Assign | What::Add | What::Mul | What::TMul | What::MulT | What::Transpose => {
                Ending::Joined(What::Join)
            }
            What::SMul | What::MulS | What::Full => Ending::Joined(What::Join),
            What::Square | What::RankMul | What::TRank => Ending::Joined(What::SJoin),
            What::SAssign => Ending::Joined(What::SJoin),
            What::SAdd => Ending::Joined(What::SJoin),
            What::Trace | What::STrace => Ending::Single,
            What::Join | What::SJoin | What::AddNum => Ending::Single,
        }
    }
}
