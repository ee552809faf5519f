use sr_value::{Span, Text};

/// A name where it stands.
#[derive(Drop)]
pub struct Name {
    pub text: Text,
    pub span: Span,
}

/// A name, or a name of a component and one of its spec: `name` or `component.name`.
#[derive(Drop)]
pub struct QualifiedName {
    pub span: Span,
    pub first: Name,
    /// The name after the point, where there is one.
    pub second: Option<Name>,
}
