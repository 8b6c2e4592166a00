//! The elements that rows name.

ghost use Rattle.std.specs.Prelude.{◌≡◌};
ghost use Rattle.gd_day.specs.ElementNames as spec;

use gd_system::{Element, System};
use gd_units::Name;

/// The element of this name; one that isn't there has the number past the last, as no element of the pipeline has.
pub fn element_named(system: &System, name: Name) -> Element
    ensures { result ≡ spec.element_named system.now name }
{
    system
        .element(name)
        .unwrap_or(Element(system.element_count()))
}
