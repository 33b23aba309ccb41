//! The laws of the spellings, each as the contract of a function that does nothing.

ghost use Rattle.xv_base.specs.Units.{Shape};
ghost use Rattle.xv_base.specs.Layout.{IsGood};
ghost use Rattle.xv_frame.specs.Laws.{HaveOneSpelling, FitOneList, ReadBack, ReadBackAll, AcceptHeads, AcceptGroups, TellSize};

/// Each frame has one spelling, and no spelling is a prefix of another frame's.
pub fn frames_have_one_spelling()
    ensures { (s : Shape) → IsGood s → HaveOneSpelling s }
{}

/// Bytes are the spellings of one list of frames at most.
pub fn bytes_fit_one_list()
    ensures { (s : Shape) → IsGood s → FitOneList s }
{}

/// A frame is read back from its spelling, whatever follows it.
pub fn frames_read_back()
    ensures { (s : Shape) → IsGood s → ReadBack s }
{}

/// A list of frames is read back from the spellings one after another.
pub fn lists_read_back()
    ensures { (s : Shape) → IsGood s → ReadBackAll s }
{}

/// The check of a head accepts each spelling.
pub fn spelled_heads_are_accepted()
    ensures { (s : Shape) → IsGood s → AcceptHeads s }
{}

/// The check of a group accepts each spelling.
pub fn spelled_groups_are_accepted()
    ensures { (s : Shape) → IsGood s → AcceptGroups s }
{}

/// The head of a frame tells how long the frame is.
pub fn heads_tell_size()
    ensures { (s : Shape) → IsGood s → TellSize s }
{}
