// The forms of what is printed.

ghost use Rattle.std.specs.Prelude.{◌≡◌};
ghost use Rattle.base_json.specs.Forms.{form_of};

/// In which form lines are printed.
#[derive(Clone, Copy)]
pub enum Form {
    /// Lines to be read.
    Plain,
    /// An object of JSON a line.
    Json,
}

impl Form {
    /// JSON where that is asked for, otherwise plain lines.
    pub fn of(json: bool) -> Form
        ensures { result ≡ form_of json }
    {
        if json { Form::Json } else { Form::Plain }
    }
}
