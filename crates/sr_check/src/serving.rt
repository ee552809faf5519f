use sr_names::Spot;

/// What a piece of code does.
#[derive(Clone, Copy)]
pub enum Serving {
    /// It sets a component up.
    SetsUp,
    /// It ends an instance.
    Ends,
    /// It serves the operation that is declared here.
    Serves(Spot),
}
