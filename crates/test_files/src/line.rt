// A line of the cases.

/// What a line of the cases says.
pub enum Line<'l> {
    /// `@NAME`: a file of this name begins anew, and what follows is added to it.
    Begin(&'l str),
    /// `!NAME`: to read the file of this name fails for want of memory.
    Break(&'l str),
    /// `&NAME`: adds all bytes of another file.
    Include(&'l str),
    /// `+TEXT`, or `*TIMES+TEXT`: adds the text and a line feed, so many times.
    Text { times: u32, text: &'l str },
    /// `=BYTES`, or `*TIMES=BYTES`: adds the bytes, in which escapes have a meaning, so many times.
    Bytes { times: u32, bytes: &'l str },
    /// `>COUNT`: the standard output of the next run takes so many bytes.
    Limit(usize),
    /// `$WORDS`: a run, of which all is printed.
    Run(&'l str),
    /// `?WORDS`: a run, of which the status is printed, and where it has written.
    Status(&'l str),
    /// `<WORDS`: the same, and the standard output is added to the last file.
    Keep(&'l str),
    /// `%TEXT`: prints how many lines of the last file begin with the text.
    Count(&'l str),
    /// Any other line is printed as it is.
    Note,
}

/// What a line says; none where its number is none.
pub fn line_of(line: &str) -> Option<Line<'_>> {
    let Some(rest) = line.get(1..) else {
        return Some(Line::Note);
    };
    match line.as_bytes()[0] {
        b'@' => Some(Line::Begin(rest)),
        b'!' => Some(Line::Break(rest)),
        b'&' => Some(Line::Include(rest)),
        b'+' => Some(Line::Text {
            times: 1,
            text: rest,
        }),
        b'=' => Some(Line::Bytes {
            times: 1,
            bytes: rest,
        }),
        b'*' => repeated(rest),
        b'>' => Some(Line::Limit(rest.parse().ok()?)),
        b'$' => Some(Line::Run(rest)),
        b'?' => Some(Line::Status(rest)),
        b'<' => Some(Line::Keep(rest)),
        b'%' => Some(Line::Count(rest)),
        _ => Some(Line::Note),
    }
}

fn repeated(rest: &str) -> Option<Line<'_>> {
    let at = rest.find(|c: char| !c.is_ascii_digit())?;
    let (digits, rest) = rest.split_at(at);
    let times = digits.parse().ok()?;
    if let Some(text) = rest.strip_prefix('+') {
        return Some(Line::Text { times, text });
    }
    let bytes = rest.strip_prefix('=')?;
    Some(Line::Bytes { times, bytes })
}
