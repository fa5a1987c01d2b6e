// Objects of JSON.

ghost use Rattle.std.specs.Prelude.{◌≡◌, ◌∷◌, ◌++◌, [], OnOk, IfOk, decimal};
ghost use Rattle.std.specs.Fmt.{signed_decimal};
ghost use Rattle.base_texts.specs.Puts.{Puts};
ghost use Rattle.json.specs.Lex.{tokens};
ghost use Rattle.json.specs.Print.{print};
ghost use Rattle.json.specs.Token.{begin_object, end_object, begin_array, end_array, key, string, number, boolean, null};
ghost use Rattle.base_json.specs.Objects.{text_member, number_member, integer_member, truth_member, null_member, line_of};

use json::Writer;
use std::alloc::{AllocError, Global};
use std::marker::Model;

/// An object that is being written. Contracts see its tokens so far.
#[derive(Drop)]
pub struct Object {
    json: Writer<Global>,
    alloc: Global,
}

impl Model for Object {
    ghost use Rattle.std.specs.Prelude.{List};
    ghost use Rattle.json.specs.Token.{Token, tokens_code};

    ghost Value = { List Token };

    ghost coded = { tokens_code };

    ghost view = { λ o. o.json.tokens };

    ghost use Rattle.base_json.specs.Objects.{IsAlone};

    ghost invariant = { IsAlone };
}

impl Object {
    /// An object without members, not ended yet.
    pub fn begin(alloc: Global) -> Result<Object, AllocError>
        ensures { IfOk result (λ object. object ≡ begin_object ∷ []) }
    {
        let mut json = Writer::new(Vec::new(alloc));
        json.begin_object()?;
        Ok(Object { json, alloc })
    }

    /// Adds the name of a member.
    pub fn key(&mut self, name: &str) -> Result<(), AllocError>
        ensures { OnOk result (self.new ≡ self.old ++ key name.now ∷ []) }
    {
        self.json.key(name)
    }

    /// Adds a text.
    pub fn text(&mut self, text: &str) -> Result<(), AllocError>
        ensures { OnOk result (self.new ≡ self.old ++ string text.now ∷ []) }
    {
        self.json.string(text)
    }

    /// Adds a number.
    pub fn number(&mut self, n: u64) -> Result<(), AllocError>
        ensures { OnOk result (self.new ≡ self.old ++ number (decimal n) ∷ []) }
    {
        self.json.u64(n)
    }

    /// Adds an integer, which may be below 0.
    pub fn integer(&mut self, z: i128) -> Result<(), AllocError>
        ensures { OnOk result (self.new ≡ self.old ++ number (signed_decimal z) ∷ []) }
    {
        let digits = format!(in self.alloc; "{}", z)?;
        self.json.number(&digits)
    }

    /// Begins an object inside.
    pub fn begin_object(&mut self) -> Result<(), AllocError>
        ensures { OnOk result (self.new ≡ self.old ++ begin_object ∷ []) }
    {
        self.json.begin_object()
    }

    /// Ends the object inside that was begun last.
    pub fn end_object(&mut self) -> Result<(), AllocError>
        ensures { OnOk result (self.new ≡ self.old ++ end_object ∷ []) }
    {
        self.json.end_object()
    }

    /// Begins a list.
    pub fn begin_list(&mut self) -> Result<(), AllocError>
        ensures { OnOk result (self.new ≡ self.old ++ begin_array ∷ []) }
    {
        self.json.begin_array()
    }

    /// Ends the list that was begun last.
    pub fn end_list(&mut self) -> Result<(), AllocError>
        ensures { OnOk result (self.new ≡ self.old ++ end_array ∷ []) }
    {
        self.json.end_array()
    }

    /// Adds a member: a text.
    pub fn text_member(&mut self, name: &str, text: &str) -> Result<(), AllocError>
        ensures { OnOk result (self.new ≡ self.old ++ text_member name.now text.now) }
    {
        self.key(name)?;
        self.text(text)
    }

    /// Adds a member: a number.
    pub fn number_member(&mut self, name: &str, n: u64) -> Result<(), AllocError>
        ensures { OnOk result (self.new ≡ self.old ++ number_member name.now n) }
    {
        self.key(name)?;
        self.number(n)
    }

    /// Adds a member: an integer, which may be below 0.
    pub fn integer_member(&mut self, name: &str, z: i128) -> Result<(), AllocError>
        ensures { OnOk result (self.new ≡ self.old ++ integer_member name.now z) }
    {
        self.key(name)?;
        self.integer(z)
    }

    /// Adds a member: true or false.
    pub fn truth_member(&mut self, name: &str, truth: bool) -> Result<(), AllocError>
        ensures { OnOk result (self.new ≡ self.old ++ truth_member name.now truth) }
    {
        self.key(name)?;
        self.json.boolean(truth)
    }

    /// Adds a member that has no value.
    pub fn null_member(&mut self, name: &str) -> Result<(), AllocError>
        ensures { OnOk result (self.new ≡ self.old ++ null_member name.now) }
    {
        self.key(name)?;
        self.json.null()
    }

    /// Ends the object, and puts it at the end of a text as a line of its own.
    pub fn put_line(self, text: &mut String) -> Result<(), AllocError>
        ensures line { OnOk result (Puts text.old text.new (line_of (self ++ end_object ∷ []))) }
        ensures read { OnOk result (tokens (print (self ++ end_object ∷ []))
            ≡ self ++ end_object ∷ []) }
    {
        let Object { mut json, .. } = self;
        json.end_object()?;
        let Ok(line) = String::from_utf8(json.into_inner()) else {
            unreachable!()
        };
        text.push_str(&line)?;
        text.push_str("\n")
    }
}
