ghost use Rattle.std.specs.Prelude.{◌≡◌, Ok, IfOk, IfErr, OnSome};
ghost use Rattle.words.specs.Words.{words, behind_first};
ghost use Rattle.plugin_text.specs.Answer.{IsFaultFor};
ghost use Rattle.plugin_text.specs.Fields.{texts};
ghost use Rattle.plugin_text.specs.Line.{line, text_line, first_keyword, known_line, said};

use crate::block::{read_begin, read_moment, read_set};
use crate::chart::read_chart;
use crate::dimension::read_dimension;
use crate::fault::LineFault;
use crate::fields::{Fields, read_fields};
use crate::keyword::{Keyword, keyword_of};
use fixed_num::Text;
use history::Line;
use std::alloc::Global;
use std::str;
use words::Words;

/// Reads one line, which stands there without its line feed.
///
/// The rules are those of external plugins in Netdata's public documentation, made exact here. A line
/// that begins with no keyword is skipped, whatever text it holds. Memory is taken for the texts that
/// the line keeps, and for nothing else.
pub fn read_line(alloc: Global, bytes: &[u8]) -> Result<Line, LineFault>
    ensures line { IfOk result (λ said. line bytes.now ≡ Ok said) }
    ensures fault { IfErr result (IsFaultFor (line bytes.now)) }
{
    let text = str::from_utf8(bytes)?;
    read_text(alloc, text)
}

fn read_text(alloc: Global, line: &str) -> Result<Line, LineFault>
    ensures line { IfOk result (λ said. text_line line.now ≡ Ok said) }
    ensures fault { IfErr result (IsFaultFor (text_line line.now)) }
{
    let mut words = Words::new(line);
    match first_keyword(&mut words) {
        Some(keyword) => read_known(alloc, keyword, &mut words),
        None => Ok(Line::Skipped),
    }
}

/// The keyword that a line begins with.
fn first_keyword(line: &mut Words) -> Option<Keyword>
    ensures keyword { result ≡ first_keyword (words line.old) }
    ensures rest { OnSome result (line.new ≡ behind_first line.old) }
{
    let word = line.next_word().ok().flatten()?;
    keyword_of(word)
}

/// Reads what follows the keyword of a line.
fn read_known(alloc: Global, keyword: Keyword, line: &mut Words) -> Result<Line, LineFault>
    ensures line { IfOk result (λ said. known_line line.old keyword ≡ Ok said) }
    ensures fault { IfErr result (IsFaultFor (known_line line.old keyword)) }
{
    let rest = line.rest();
    let fields = read_fields(line)?;
    read_said(alloc, keyword, &fields, rest)
}

fn read_said(
    alloc: Global,
    keyword: Keyword,
    fields: &Fields,
    rest: &str,
) -> Result<Line, LineFault>
    ensures line { IfOk result (λ line. said keyword (texts fields.now.items) rest.now ≡ Ok line) }
    ensures fault { IfErr result (IsFaultFor (said keyword (texts fields.now.items) rest.now)) }
{
    match keyword {
        Keyword::Chart => read_chart(alloc, fields),
        Keyword::Dimension => read_dimension(alloc, fields),
        Keyword::Begin => read_begin(alloc, fields),
        Keyword::Set => read_set(alloc, fields),
        Keyword::End => Ok(Line::End),
        Keyword::Flush => Ok(Line::Flush),
        Keyword::Disable => Ok(Line::Disable),
        Keyword::Moment => read_moment(fields),
        Keyword::Query => {
            let text = Text::from_str(alloc, rest)?;
            Ok(Line::Query(text))
        }
    }
}
