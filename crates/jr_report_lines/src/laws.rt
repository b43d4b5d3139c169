ghost use Rattle.jr_report_lines.specs.InOrder.{EachHasOneLine, LinesAreInOrder, LinesAreSorted};

/// Each bad verdict of a run has one line of its report, and no other line is of one.
pub fn each_has_one_line()
    ensures { EachHasOneLine }
{}

/// The lines stand by clone, then by pass, then by number, and no two are of one write.
pub fn lines_are_in_order()
    ensures { LinesAreInOrder }
{}

/// Whatever sorts the bad verdicts by their writes gives the lines of the report.
pub fn lines_are_sorted()
    ensures { LinesAreSorted }
{}
