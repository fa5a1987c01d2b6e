// What names can mean: the standard's functions and blocks, where variables are, and whose image names are.

use il_syntax::tree::Elementary;

/// The standard functions of the profile (IEC 61131-3:2003, 2.5.1.5).
#[derive(Clone, Copy)]
pub enum StandardFunction {
    Absolute,
    Minimum,
    Maximum,
    Limited,
    Selected,
    /// X_TO_Y, between two different integer types (2.5.1.5.1).
    Converted(Elementary, Elementary),
}

/// The standard function blocks of the profile (2.5.2.3).
#[derive(Clone, Copy)]
pub enum StandardBlock {
    Sr,
    Rs,
    RTrig,
    FTrig,
    Ctu,
    Ctd,
    Ctud,
    Tp,
    Ton,
    Tof,
}

/// Where a variable is: in a list of its unit, as a function's result, or in the image (2.4.3).
#[derive(Clone, Copy)]
pub enum Origin {
    Input,
    Output,
    Local,
    External,
    FunctionResult,
    ReadImage,
    WrittenImage,
}

/// Which programs see an image name (own rule).
#[derive(Clone, Copy)]
pub enum Audience {
    Everybody,
    CarPrograms,
    GroupPrograms,
}

/// The tasks of a group: one for each car, and GROUP (own rule).
#[derive(Clone, Copy)]
pub enum Role {
    Car,
    Group,
}
