//! Laws of the orders of the lists: each function does nothing, and its contract is a law.

ghost use Rattle.tv_laws_orders.specs.Laws.{DiagramsInOrder, ExtrasInOrder, AssignmentsInOrder, AssignmentsOfInOrder};
ghost use Rattle.tv_laws_orders.specs.Laws.{ConfigurationsInOrder, SetsByLeastCell, OrdersAreStrict, OrdersTellLists};
ghost use Rattle.tv_laws_orders.specs.Laws.{DiagramsTold, AssignmentsTold, ConfigurationsTold};

/// The diagrams of one size: at the first row in which two differ, the greater goes first.
pub fn diagrams_in_order()
    ensures { DiagramsInOrder }
{}

/// The sets of as many extras at a corner: of two, the one with the least cell in which they differ goes first.
pub fn extras_in_order()
    ensures { ExtrasInOrder }
{}

/// Of two sets of as many cells one comes before the other exactly where it has a cell that the other lacks, and before that
/// cell both have the same ones.
pub fn sets_by_least_cell()
    ensures { SetsByLeastCell }
{}

/// The assignments of degree at most d: the first edge at which two differ decides, there fewer cells go first, and then
/// the greater row.
pub fn assignments_in_order()
    ensures { AssignmentsInOrder }
{}

/// So are the assignments of a class.
pub fn assignments_of_class_in_order()
    ensures { AssignmentsOfInOrder }
{}

/// The configurations of a class and an Euler characteristic: the assignment decides, and with the same one the first
/// corner at which the extras differ, there fewer boxes go first, and then the least cell.
pub fn configurations_in_order()
    ensures { ConfigurationsInOrder }
{}

/// In none of these orders do two come before one another, and none comes before itself.
pub fn orders_are_strict()
    ensures { OrdersAreStrict }
{}

/// So members and order tell the list: two lists in order with the same members are equal.
pub fn orders_tell_lists()
    ensures { OrdersTellLists }
{}

/// A list in order of exactly the diagrams of one size is the list of them.
pub fn diagrams_told()
    ensures { DiagramsTold }
{}

/// In a graded web a list in order of exactly the assignments of degree at most d is the list of them, too.
pub fn assignments_told()
    ensures { AssignmentsTold }
{}

/// In a graded web with diagrams on its open edges so is a list in order of exactly the configurations of a class and an
/// Euler characteristic.
pub fn configurations_told()
    ensures { ConfigurationsTold }
{}
