// The image names (own rule).

ghost use Rattle.std.specs.Prelude.{◌≡◌, map, option_map};
ghost use Rattle.il_syntax.specs.declared.tree.Config.{Config as Configuration};
ghost use Rattle.il_syntax.specs.ElementaryTypes.{plain};
ghost use Rattle.il_statics.specs.Names.{image_name, within};
ghost use Rattle.load_scope.specs.Views.{image_entry};
ghost use Rattle.load_scope.specs.Images.{limit_in, scalar_in, type_in, image_in, named, row_among, image_entries};

use crate::entry::{ImageName, Variable, VariableType};
use crate::words::is_name;
use il_statics::names::{Audience, Origin};
use il_syntax::tree::{Config, Elementary, Scalar, Subrange};

// A limit in the type of an image name: a number, or one that the configuration gives.
#[derive(Clone, Copy)]
enum Limit {
    Fixed(i64),
    Cars,
    Floors,
    Slots,
}

// The type of an image name, or of the elements of its array.
#[derive(Clone, Copy)]
enum ImageScalar {
    Plain(Elementary),
    /// INT within these limits.
    Within(Limit, Limit),
}

// The type of an image name.
#[derive(Clone, Copy)]
enum ImageType {
    Single(ImageScalar),
    /// ARRAY [1..length] of this element.
    Row { length: Limit, element: ImageScalar },
}

/// A row of the table of image names.
#[derive(Clone, Copy)]
pub struct ImageRow {
    pub name: &'static str,
    audience: Audience,
    origin: Origin,
    declared: ImageType,
}

// The table of image names.
static IMAGE: [ImageRow; 23] = [
    ImageRow {
        name: "CARS",
        audience: Audience::Everybody,
        origin: Origin::ReadImage,
        declared: ImageType::Single(ImageScalar::Within(Limit::Cars, Limit::Cars)),
    },
    ImageRow {
        name: "FLOORS",
        audience: Audience::Everybody,
        origin: Origin::ReadImage,
        declared: ImageType::Single(ImageScalar::Within(Limit::Floors, Limit::Floors)),
    },
    ImageRow {
        name: "SLOTS",
        audience: Audience::Everybody,
        origin: Origin::ReadImage,
        declared: ImageType::Single(ImageScalar::Within(Limit::Slots, Limit::Slots)),
    },
    ImageRow {
        name: "NOW",
        audience: Audience::Everybody,
        origin: Origin::ReadImage,
        declared: ImageType::Single(ImageScalar::Plain(Elementary::Time)),
    },
    ImageRow {
        name: "RUNLIMIT",
        audience: Audience::Everybody,
        origin: Origin::ReadImage,
        declared: ImageType::Single(ImageScalar::Within(Limit::Fixed(0), Limit::Cars)),
    },
    ImageRow {
        name: "FIRE",
        audience: Audience::Everybody,
        origin: Origin::ReadImage,
        declared: ImageType::Single(ImageScalar::Plain(Elementary::Bool)),
    },
    ImageRow {
        name: "CARNO",
        audience: Audience::CarPrograms,
        origin: Origin::ReadImage,
        declared: ImageType::Single(ImageScalar::Within(Limit::Fixed(1), Limit::Cars)),
    },
    ImageRow {
        name: "POS",
        audience: Audience::CarPrograms,
        origin: Origin::ReadImage,
        declared: ImageType::Single(ImageScalar::Within(Limit::Fixed(1), Limit::Floors)),
    },
    ImageRow {
        name: "LEVEL",
        audience: Audience::CarPrograms,
        origin: Origin::ReadImage,
        declared: ImageType::Single(ImageScalar::Plain(Elementary::Bool)),
    },
    ImageRow {
        name: "TOP",
        audience: Audience::CarPrograms,
        origin: Origin::ReadImage,
        declared: ImageType::Single(ImageScalar::Plain(Elementary::Bool)),
    },
    ImageRow {
        name: "BOTTOM",
        audience: Audience::CarPrograms,
        origin: Origin::ReadImage,
        declared: ImageType::Single(ImageScalar::Plain(Elementary::Bool)),
    },
    ImageRow {
        name: "LOCKED",
        audience: Audience::CarPrograms,
        origin: Origin::ReadImage,
        declared: ImageType::Single(ImageScalar::Plain(Elementary::Bool)),
    },
    ImageRow {
        name: "OPENED",
        audience: Audience::CarPrograms,
        origin: Origin::ReadImage,
        declared: ImageType::Single(ImageScalar::Plain(Elementary::Bool)),
    },
    ImageRow {
        name: "CPOS",
        audience: Audience::GroupPrograms,
        origin: Origin::ReadImage,
        declared: ImageType::Row {
            length: Limit::Cars,
            element: ImageScalar::Within(Limit::Fixed(1), Limit::Floors),
        },
    },
    ImageRow {
        name: "CMOTOR",
        audience: Audience::GroupPrograms,
        origin: Origin::ReadImage,
        declared: ImageType::Row {
            length: Limit::Cars,
            element: ImageScalar::Within(Limit::Fixed(-1), Limit::Fixed(1)),
        },
    },
    ImageRow {
        name: "CALLWAITS",
        audience: Audience::Everybody,
        origin: Origin::ReadImage,
        declared: ImageType::Row {
            length: Limit::Slots,
            element: ImageScalar::Plain(Elementary::Bool),
        },
    },
    ImageRow {
        name: "CALLFROM",
        audience: Audience::Everybody,
        origin: Origin::ReadImage,
        declared: ImageType::Row {
            length: Limit::Slots,
            element: ImageScalar::Within(Limit::Fixed(0), Limit::Floors),
        },
    },
    ImageRow {
        name: "CALLTO",
        audience: Audience::Everybody,
        origin: Origin::ReadImage,
        declared: ImageType::Row {
            length: Limit::Slots,
            element: ImageScalar::Within(Limit::Fixed(0), Limit::Floors),
        },
    },
    ImageRow {
        name: "CALLCAR",
        audience: Audience::Everybody,
        origin: Origin::ReadImage,
        declared: ImageType::Row {
            length: Limit::Slots,
            element: ImageScalar::Within(Limit::Fixed(0), Limit::Cars),
        },
    },
    ImageRow {
        name: "MOTOR",
        audience: Audience::CarPrograms,
        origin: Origin::WrittenImage,
        declared: ImageType::Single(ImageScalar::Within(Limit::Fixed(-1), Limit::Fixed(1))),
    },
    ImageRow {
        name: "OPEN",
        audience: Audience::CarPrograms,
        origin: Origin::WrittenImage,
        declared: ImageType::Single(ImageScalar::Plain(Elementary::Bool)),
    },
    ImageRow {
        name: "SERVE",
        audience: Audience::CarPrograms,
        origin: Origin::WrittenImage,
        declared: ImageType::Single(ImageScalar::Within(Limit::Fixed(0), Limit::Slots)),
    },
    ImageRow {
        name: "ASSIGN",
        audience: Audience::GroupPrograms,
        origin: Origin::WrittenImage,
        declared: ImageType::Row {
            length: Limit::Slots,
            element: ImageScalar::Within(Limit::Fixed(0), Limit::Cars),
        },
    },
];

/// The rows of the image names, in their order.
pub fn image_rows() -> &'static [ImageRow]
    ensures { (config : Configuration) → map (named config) result.now ≡ image_entries config }
{
    &IMAGE
}

/// The image name of this spelling.
pub fn image_name(config: &Config, name: &str) -> Option<ImageName>
    ensures { result ≡ option_map (image_entry config.now) (image_name config.now name.now) }
{
    match row_named(image_rows(), name) {
        Some(row) => Some(image_in(config, row)),
        None => None,
    }
}

// The row of this spelling.
fn row_named<'a>(rows: &'a [ImageRow], name: &str) -> Option<&'a ImageRow>
    ensures { option_map (λ r. r.now) result ≡ row_among rows.now name.now }
{
    rows.iter().find(|row| is_name(name, row.name))
}

/// The image name of a row.
pub fn image_in(config: &Config, row: &ImageRow) -> ImageName
    ensures { result ≡ image_in config.now row.now }
{
    ImageName {
        variable: Variable {
            declared: type_in(config, row.declared),
            origin: row.origin,
        },
        audience: row.audience,
    }
}

// The type of an image name.
fn type_in(config: &Config, declared: ImageType) -> VariableType
    ensures { result ≡ type_in config.now declared }
{
    match declared {
        ImageType::Single(scalar) => VariableType::Scalar(scalar_in(config, scalar)),
        ImageType::Row { length, element } => VariableType::Array {
            bounds: Subrange {
                lower: 1,
                upper: limit_in(config, length),
            },
            element: scalar_in(config, element),
        },
    }
}

// The type of an image name, or of the elements of its array.
fn scalar_in(config: &Config, scalar: ImageScalar) -> Scalar
    ensures { result ≡ scalar_in config.now scalar }
{
    match scalar {
        ImageScalar::Plain(elementary) => plain(elementary),
        ImageScalar::Within(lower, upper) => within(
            limit_in(config, lower),
            limit_in(config, upper),
        ),
    }
}

// A limit in a configuration.
fn limit_in(config: &Config, limit: Limit) -> i64
    ensures { result ≡ limit_in config.now limit }
{
    match limit {
        Limit::Fixed(number) => number,
        Limit::Cars => config.cars.value,
        Limit::Floors => config.floors.value,
        Limit::Slots => config.slots.value,
    }
}

// INT within these limits.
fn within(lower: i64, upper: i64) -> Scalar
    ensures { result ≡ within lower upper }
{
    Scalar {
        elementary: Elementary::Int,
        subrange: Some(Subrange { lower, upper }),
    }
}

/// An elementary type without a subrange.
pub fn plain(elementary: Elementary) -> Scalar
    ensures { result ≡ plain elementary }
{
    Scalar {
        elementary,
        subrange: None,
    }
}
