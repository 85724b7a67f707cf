//! How the elements of a store are written (profile).
ghost use Rattle.std.specs.Prelude.{ℕ, List};
ghost use Rattle.uecp_elements.specs.Grammar as grammar;
ghost use Rattle.uecp_elements.specs.View.{element_of};
ghost use Rattle.uecp_text.specs.Written.{Kept, Adds};

use uecp_elements::Element;

/// A form in which elements are written, one after another, to an output. Contracts see the bytes of an element and
/// what the output keeps.
pub trait ElementForm {
    /// What the elements are written to.
    type Out;

    // What an output keeps.
    ghost kept: { Self.Out → Kept };

    // The bytes of an element in this form.
    ghost bytes: { Self → grammar.Element → List ℕ };

    /// Adds an element. Where memory is refused, the output is whole no longer.
    fn put(&self, element: &Element<'_>, output: &mut Self::Out)
        requires { grammar.IsElement (element_of element.now) }
        ensures { Adds (kept output.old) (kept output.new) (bytes self.now (element_of element.now)) };
}
