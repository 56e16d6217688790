ghost use Rattle.std.specs.Prelude.{◌≡◌};
ghost use Rattle.cht_script.specs.Statements.{shape_bound, general};
ghost use Rattle.cht_session.specs.Forms.{sum_asked, product_asked, what_asked};
ghost use Rattle.cht_session.specs.Operations.{verb_of, is_single, fits_by};

use cht_ids::{fits_product, fits_sum};
use cht_script::Shape;
use mm_text::Form;
use quad_matrix::What;

/// What makes a matrix of one other or of two.
#[derive(Clone, Copy, Debug, PartialEq, Eq)]
pub(crate) enum Operation {
    Add,
    Mul,
    /// The product with the first matrix transposed.
    TMul,
    /// The product with the second matrix transposed.
    MulT,
    /// The product of a symmetric matrix with itself.
    Square,
    /// A symmetric matrix in the general form.
    Full,
}

impl Operation {
    /// Whether it takes one matrix alone. It is then told that matrix as its second one too.
    pub(crate) fn is_single(self) -> bool
        ensures { result ≡ is_single self }
    {
        match self {
            Operation::Add | Operation::Mul | Operation::TMul | Operation::MulT => false,
            Operation::Square | Operation::Full => true,
        }
    }

    /// The task that does it, for matrices of these forms.
    pub(crate) fn what(self, first: Form, second: Form) -> What
        ensures { result ≡ what_asked (verb_of self) first second }
    {
        match self {
            Operation::Add => sum_in(first),
            Operation::Mul => product_in(first, second),
            Operation::TMul => What::TMul,
            Operation::MulT => What::MulT,
            Operation::Square => What::Square,
            Operation::Full => What::Full,
        }
    }

    /// Whether no number of the result, and no sum on the way to it, can exceed the limit: by the size of the first matrix,
    /// not of the square that completes it, and by the greatest absolute values of both.
    pub(crate) fn fits(self, rows: u32, columns: u32, first: u128, second: u128) -> bool
        ensures { result ≡ fits_by self rows columns first second }
    {
        match self {
            Operation::Add => fits_sum(first, second),
            Operation::Mul => fits_product(columns, first, second),
            Operation::TMul => fits_product(rows, first, second),
            Operation::MulT => fits_product(columns, first, second),
            Operation::Square => fits_product(rows, first, first),
            Operation::Full => true,
        }
    }

    /// The shape of the result, of matrices with these shapes.
    pub(crate) fn shape(self, a: Shape, b: Shape) -> Shape
        ensures { result ≡ shape_bound (verb_of self) a b }
    {
        match self {
            Operation::Add => a,
            Operation::Mul => general(a.rows, b.columns),
            Operation::TMul => general(a.columns, b.columns),
            Operation::MulT => general(a.rows, b.rows),
            Operation::Square => a,
            Operation::Full => general(a.rows, a.columns),
        }
    }
}

// The task that adds two matrices of a form.
fn sum_in(form: Form) -> What
    ensures { result ≡ sum_asked form }
{
    match form {
        Form::General => What::Add,
        Form::Symmetric => What::SAdd,
    }
}

// The task that multiplies two matrices of these forms, of which one at most is symmetric.
fn product_in(first: Form, second: Form) -> What
    ensures { result ≡ product_asked first second }
{
    match (first, second) {
        (Form::Symmetric, _) => What::SMul,
        (Form::General, Form::Symmetric) => What::MulS,
        (Form::General, Form::General) => What::Mul,
    }
}

// A general matrix of that many rows and columns.
fn general(rows: u32, columns: u32) -> Shape
    ensures { result ≡ general rows columns }
{
    Shape {
        rows,
        columns,
        form: Form::General,
    }
}
