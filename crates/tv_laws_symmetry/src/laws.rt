//! Laws of corners whose axes stand in another order: each function does nothing, and its contract is a law.

ghost use Rattle.tv_laws_symmetry.specs.Symmetry.{ExchangedCount, RotatedCount, ImageCounts, ImageOverlaps};
ghost use Rattle.tv_laws_symmetry.specs.Symmetry.{ImagesAreDiagrams, ImagesAreClosed, ImagesAreOneSet};

/// An exchange of x and y, or of y and z, leaves the number of sets of extras.
pub fn exchanged_count()
    ensures { ExchangedCount }
{}

/// So does a turn of the axes.
pub fn rotated_count()
    ensures { RotatedCount }
{}

/// And each of the six orders of the axes.
pub fn image_counts()
    ensures { ImageCounts }
{}

/// Each of them leaves the overlap cost, too.
pub fn image_overlaps()
    ensures { ImageOverlaps }
{}

/// In each of them the legs are diagrams.
pub fn images_are_diagrams()
    ensures { ImagesAreDiagrams }
{}

/// An exchange of two axes, or a turn, takes each of the six to one of the six.
pub fn images_are_closed()
    ensures { ImagesAreClosed }
{}

/// So each of the six has the same six.
pub fn images_are_one_set()
    ensures { ImagesAreOneSet }
{}
