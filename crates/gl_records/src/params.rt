use fx_arith::Fx;

/// The four words of a command's parameter, as GLfixed numbers. A parameter that is one number is the first of them,
/// and one of GL's codes or a truth value is the first of them as a word; the others are then ignored.
#[derive(Clone, Copy, Debug, PartialEq, Eq)]
pub struct Params(pub Fx, pub Fx, pub Fx, pub Fx);

/// The sixteen words of a matrix, as GLfixed numbers: its four columns, the entries of each from the first row on.
#[derive(Clone, Copy, Debug, PartialEq, Eq)]
pub struct Columns(pub Params, pub Params, pub Params, pub Params);
