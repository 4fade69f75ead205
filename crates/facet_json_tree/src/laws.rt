//! What the definitions of `specs/` mean, in the subject's own words: each law is the contract of a function without effect.

ghost use Rattle.facet_json_tree.specs.Depth.{FirstBeyondIsDeeper};
ghost use Rattle.facet_json_tree.specs.EditLaws.{SetIsFound, SetKeepsOthers, DroppedIsGone, DropKeepsOthers};
ghost use Rattle.facet_json_tree.specs.SortedLaws.{OrderAscends, SortedIsFound};

/// A bracket stands beyond a depth exactly where a value nests deeper.
pub fn first_beyond_is_deeper()
    ensures { FirstBeyondIsDeeper }
{}

/// What a name finds once a member is set, and once members are removed: what was set, or nothing; each other name what it found before.
pub fn changes_are_found()
    ensures set { SetIsFound }
    ensures set_keeps { SetKeepsOthers }
    ensures gone { DroppedIsGone }
    ensures drop_keeps { DropKeepsOthers }
{}

/// Once the members of each object are in order, their names ascend, and each name finds what it found before, itself sorted.
pub fn sorted_members_are_found()
    ensures ascend { OrderAscends }
    ensures found { SortedIsFound }
{}
