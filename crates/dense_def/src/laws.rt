//! The laws of matrices, of their blocks and of the sizes of their entries. Each function does nothing: its contract is the
//! law, which `specs/Laws.antt` states, and a proof above cites the lemma of `proofs/` behind it.

ghost use Rattle.dense_def.specs.Laws.{TransposeTwice, TransposeOfProduct, TransposedFactorFirst, TransposedFactorSecond, BlockOfProduct, JoinOfQuadrants, QuadrantsOfJoin, SumOfJoins, TransposeOfJoin, TraceOfJoin, ProductOfJoins, TmulOfJoins, MultOfJoins, SymmetricJoin, SymmetricSquare, RankByRows, RankByColumns, SymmetricSum, SquareIsSymmetric, RankIsSymmetric, ZeroIsZeros, SumWithZeros, ProductWithZeros, TransposeOfZeros, TraceOfZeros, JoinOfZeros, PeakIsBound, PeakIsLeast, PeakOfZero, PeakOfJoin, PeakOfTranspose, SumFitsByPeaks, ProductFitsByPeaks, TmulFitsByPeaks, MultFitsByPeaks, TraceFitsByPeak, SumFitsOnQuadrants, ProductFitsOnQuadrants, TraceFitsOnQuadrants, TmulFitsIsProductFits, MultFitsIsProductFits, TmulFitsOnQuadrants, MultFitsOnQuadrants, ProductOfCompleted, TmulOfCompleted, MultOfCompleted, CompletedProductFitsByPeaks, CompletedTmulFitsByPeaks, CompletedMultFitsByPeaks};

/// Transposes: of a transpose, of a product, and the two products that take one.
pub fn transposes()
    ensures twice { TransposeTwice }
    ensures product { TransposeOfProduct }
    ensures first_factor { TransposedFactorFirst }
    ensures second_factor { TransposedFactorSecond }
{}

/// Blocks: a product at any split of its inner range, and a matrix and its quadrants at any split of its rows and columns.
pub fn blocks()
    ensures product { BlockOfProduct }
    ensures join { JoinOfQuadrants }
    ensures parts { QuadrantsOfJoin }
{}

/// The textbook operations on matrices joined of four quadrants.
pub fn quadrants()
    ensures sum { SumOfJoins }
    ensures transpose { TransposeOfJoin }
    ensures trace { TraceOfJoin }
    ensures product { ProductOfJoins }
    ensures tmul { TmulOfJoins }
    ensures mult { MultOfJoins }
{}

/// Symmetric matrices joined of quadrants: the square of one, and the two products of a matrix with its own transpose.
pub fn symmetric_quadrants()
    ensures join { SymmetricJoin }
    ensures square { SymmetricSquare }
    ensures by_rows { RankByRows }
    ensures by_columns { RankByColumns }
{}

/// What keeps a matrix symmetric.
pub fn symmetric_matrices()
    ensures sum { SymmetricSum }
    ensures square { SquareIsSymmetric }
    ensures rank { RankIsSymmetric }
{}

/// Zeros: the textbook operations on them.
pub fn zeros()
    ensures shape { ZeroIsZeros }
    ensures sum { SumWithZeros }
    ensures product { ProductWithZeros }
    ensures transpose { TransposeOfZeros }
    ensures trace { TraceOfZeros }
    ensures join { JoinOfZeros }
{}

/// The peak: the least bound of the absolute values, on quadrants and transposes.
pub fn peaks()
    ensures bound { PeakIsBound }
    ensures least { PeakIsLeast }
    ensures zero { PeakOfZero }
    ensures join { PeakOfJoin }
    ensures transpose { PeakOfTranspose }
{}

/// Peaks within which the terms of an operation fit at each place.
pub fn fitting_peaks()
    ensures sum { SumFitsByPeaks }
    ensures product { ProductFitsByPeaks }
    ensures tmul { TmulFitsByPeaks }
    ensures mult { MultFitsByPeaks }
    ensures trace { TraceFitsByPeak }
{}

/// Terms that fit on a whole matrix fit on its quadrants.
pub fn fitting_quadrants()
    ensures sum { SumFitsOnQuadrants }
    ensures product { ProductFitsOnQuadrants }
    ensures trace { TraceFitsOnQuadrants }
    ensures tmul { TmulFitsIsProductFits }
    ensures mult { MultFitsIsProductFits }
    ensures tmul_quadrants { TmulFitsOnQuadrants }
    ensures mult_quadrants { MultFitsOnQuadrants }
{}

/// Products of matrices that are completed by zeros to squares: they are the completed products, and the peaks and the inner size of the
/// matrices themselves tell whether their terms fit.
pub fn completed_products()
    ensures product { ProductOfCompleted }
    ensures tmul { TmulOfCompleted }
    ensures mult { MultOfCompleted }
    ensures product_fits { CompletedProductFitsByPeaks }
    ensures tmul_fits { CompletedTmulFitsByPeaks }
    ensures mult_fits { CompletedMultFitsByPeaks }
{}
