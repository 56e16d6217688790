//! The laws of quadtrees. Each function does nothing: its contract is the law, which `specs/Laws.antt` states, and a proof above cites
//! the lemma of `proofs/ForOthers.antt` behind it.

ghost use Rattle.quad_matrix.specs.Laws.{CanonicalStands, CanonicalIsSo, CanonicalIsOnly, NothingIsCanonical, ChildrenAreCanonical, ChildrenAreQuadrants, RootHasPeak, SymmetricStands, SymmetricIsSo, SymmetricIsOnly, NothingIsSymmetric, SymmetricChildren, SymmetricQuadrants, SymmetricRootHasPeak, NumberStands, NumberIsOnly, GoalsAreCanonical, GoalsHaveNoSide, GoalsHaveFewInputs, ProductFitsByPeaks, ProductStands, WorksAddUp, PortionsAreSound};

/// The canonical tree of a block stands for it and is the only one.
pub fn canonical_trees()
    ensures stands { CanonicalStands }
    ensures canonical { CanonicalIsSo }
    ensures only { CanonicalIsOnly }
    ensures nothing { NothingIsCanonical }
{}

/// The children of a canonical tree are the canonical trees of its quadrants, and its root has its peak.
pub fn canonical_children()
    ensures children { ChildrenAreCanonical }
    ensures quadrants { ChildrenAreQuadrants }
    ensures peak { RootHasPeak }
{}

/// The canonical symmetric tree of a symmetric block stands for it and is the only one.
pub fn symmetric_trees()
    ensures stands { SymmetricStands }
    ensures canonical { SymmetricIsSo }
    ensures only { SymmetricIsOnly }
    ensures nothing { NothingIsSymmetric }
{}

/// The children of a canonical symmetric tree are the canonical trees of its quadrants, each of its form, and its root has its peak.
pub fn symmetric_children()
    ensures children { SymmetricChildren }
    ensures quadrants { SymmetricQuadrants }
    ensures peak { SymmetricRootHasPeak }
{}

/// The tree of a number stands for it and is the only one.
pub fn number_trees()
    ensures stands { NumberStands }
    ensures only { NumberIsOnly }
{}

/// Goals are canonical, and don't hang on the side of the leaves.
pub fn goals()
    ensures canonical { GoalsAreCanonical }
    ensures no_side { GoalsHaveNoSide }
    ensures few_inputs { GoalsHaveFewInputs }
{}

/// Products of matrices that are completed by zeros: the peaks and the inner size of the matrices tell that the goal is defined, and
/// it is the tree of their product.
pub fn product_goals()
    ensures fits { ProductFitsByPeaks }
    ensures stands { ProductStands }
{}

/// Works add up.
pub fn works()
    ensures { WorksAddUp }
{}

/// Portions of sound lists are sound.
pub fn sound_portions()
    ensures { PortionsAreSound }
{}
