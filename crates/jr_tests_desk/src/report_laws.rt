// A law does nothing when it is called: that each can be called is all that there is to see.

use jr_stats::{each_has_one_line, lines_are_in_order, lines_are_sorted};

#[test]
fn the_report_laws_can_be_called() {
    each_has_one_line();
    lines_are_in_order();
    lines_are_sorted();
}
