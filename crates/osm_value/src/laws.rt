//! What holds of all elements: theorems that a caller cites by a call, which does nothing at run time.

ghost use Rattle.std.specs.List.{AllByRecursion};
ghost use Rattle.osm_value.specs.Elements.{IsElement};

use crate::element::Element;

/// An element is inside its ranges.
pub fn element_in_range(element: &Element)
    ensures { IsElement element.now }
{
    let _ = element.id();
}

/// Each of some elements is inside its ranges.
pub fn elements_in_range(elements: &[Element])
    ensures { AllByRecursion IsElement elements.now }
{
    for element in elements {
        element_in_range(element);
    }
}
