// Texts and field names, read into the front of a scratch buffer of 4,096 bytes. The answer is a length and no slice: `render_fname` writes on
// behind the text in the same buffer, and the contract of a slice would also say what the buffer holds when it is given back.
ghost use Rattle.std.specs.Prelude.{◌≡◌, ◌≤◌, length, IfErr};
ghost use Rattle.vrf_bitio.specs.Answers.{read_here};
ghost use Rattle.vrf_text.specs.Text.{fstring};
ghost use Rattle.vrf_model.specs.Names.{text_name, index_name, fname};
ghost use Rattle.vrf_reader.specs.Inner.Texts.{TextIn};

use vrf_bitio::{BitReader, Refusal};
use vrf_names::{render_fname, render_index};
use vrf_text::read_fstring;

// Every accepted text fits the 4,096 bytes. Answers its length there.
pub fn read_text(reader: &mut BitReader<'_>, scratch: &mut [u8]) -> Result<u32, Refusal>
    requires { 4096 ≤ length scratch.old }
    ensures reads { TextIn reader.old reader.new (read_here reader.old fstring) scratch.new result }
    ensures stays { IfErr result (λ _. reader.new ≡ reader.old) }
{
    read_fstring(reader, scratch)
}

// A name of kind 0: a text and a signed number.
fn read_text_name(reader: &mut BitReader<'_>, scratch: &mut [u8]) -> Result<u32, Refusal>
    requires { 4096 ≤ length scratch.old }
    ensures { TextIn reader.old reader.new (read_here reader.old text_name) scratch.new result }
{
    let n = read_text(reader, scratch)?;
    let number = reader.read_i32()?;
    Ok(render_fname(scratch, n as usize, number)? as u32)
}

// A name of any other kind: a packed index, rendered in decimal.
fn read_index_name(reader: &mut BitReader<'_>, scratch: &mut [u8]) -> Result<u32, Refusal>
    requires { 4096 ≤ length scratch.old }
    ensures { TextIn reader.old reader.new (read_here reader.old index_name) scratch.new result }
{
    let index = reader.read_int_packed()?;
    Ok(render_index(index, scratch)? as u32)
}

// A field name has a kind byte.
pub fn read_fname(reader: &mut BitReader<'_>, scratch: &mut [u8]) -> Result<u32, Refusal>
    requires { 4096 ≤ length scratch.old }
    ensures reads { TextIn reader.old reader.new (read_here reader.old fname) scratch.new result }
    ensures stays { IfErr result (λ _. reader.new ≡ reader.old) }
{
    let mut at = *reader;
    let n = if at.read_u8()? == 0 {
        read_text_name(&mut at, scratch)?
    } else {
        read_index_name(&mut at, scratch)?
    };
    *reader = at;
    Ok(n)
}
