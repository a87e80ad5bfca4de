//! Laws of the integers of one class: each function does nothing, and its contract is a law. The numbers that are read off the
//! series of a class are its integers.

ghost use Rattle.tv_class_integers.specs.ClassIntegers.{FirstOrder, FirstOrderSizes};
ghost use Rattle.tv_class_integers.specs.NextClasses.{ClassIsRead, ClassesKeep, ProductIsRead, ClassAgrees, DifferenceIsFirst, SizeIsMajorant};

/// At the class of further integers, none of which has a genus above the slope, Katz's product is that over the earlier integers less
/// the powers of 1 - X of the further ones.
pub fn first_order()
    ensures { FirstOrder }
{}

/// And the product without signs is that over the earlier integers with the sizes of these powers.
pub fn first_order_sizes()
    ensures { FirstOrderSizes }
{}

/// Where some classes are read, the numbers that are read off the next class are its integers.
pub fn class_is_read()
    ensures { ClassIsRead }
{}

/// The earlier classes keep their product.
pub fn classes_keep()
    ensures { ClassesKeep }
{}

/// The product of the class is then that over the earlier integers less the powers.
pub fn product_is_read()
    ensures { ProductIsRead }
{}

/// Where series and product agree by weight, the class agrees through that exponent.
pub fn class_agrees()
    ensures { ClassAgrees }
{}

/// The first weight at which they differ is the first exponent of the class at which the product differs from the family.
pub fn difference_is_first()
    ensures { DifferenceIsFirst }
{}

/// Where the sizes of series, product and powers at a weight exceed 2^127 - 1, so does the majorant over all integers there.
pub fn size_is_majorant()
    ensures { SizeIsMajorant }
{}
