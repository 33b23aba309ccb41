//! The laws of a layout's units, each as the contract of a function that does nothing.

ghost use Rattle.xv_base.specs.Units.{Shape};
ghost use Rattle.xv_base.specs.Layout.{IsGood, IsWithinLimits};
ghost use Rattle.xv_base.specs.Laws.{PartitionsBytes, NumbersBlocks, HasGreatestSize};

/// A layout's numbers are within the limits.
pub fn layouts_keep_limits()
    ensures { (s : Shape) → IsGood s → IsWithinLimits s }
{}

/// The units of a layout partition its bytes.
pub fn units_partition_bytes()
    ensures { (s : Shape) → IsGood s → PartitionsBytes s }
{}

/// The units past the pages are the blocks of the disks, each once.
pub fn units_number_blocks()
    ensures { (s : Shape) → IsGood s → NumbersBlocks s }
{}

/// The greatest size of a layout is that of its greatest unit.
pub fn greatest_size_is_had()
    ensures { (s : Shape) → IsGood s → HasGreatestSize s }
{}
