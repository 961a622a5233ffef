// A program is loaded.
ghost use Rattle.std.specs.Prelude.{◌≡◌, ◌<◌, ◌≤◌, [], Some, None, Ok, OnOk, OnErr, IfOk, IfErr, if◌then◌else◌};
ghost use Rattle.std.specs.FinMap.{get};
ghost use Rattle.b2_catalog.specs.Catalogue.{catalogue};
ghost use Rattle.b2_text.specs.Program.{size_of};
ghost use Rattle.b2_progfile.specs.Loading.{LoadFails, Loads, TooLarge, load_refusal, loaded, merged, text_loaded};
ghost use Rattle.b2_progfile.specs.Programs.{Ascending};
ghost use Rattle.b2_catalog.specs.Results.{FailsBy};

use crate::gathered::{Gathered, fits, gather_all, lines_of_text, refill};
use crate::reading::read_program;
use b2_base::codes::{A01_TEXT_AREA, D82_NO_FILE, D89_OTHER_KIND};
use b2_base::{Code, Fault, Name8, NoMemory};
use b2_catalog::{Entry, look};
use b2_platter::Platter;
use b2_text::Text;
use std::alloc::Global;
use std::collections::BTreeMap;

/// The live program file of a name. D82 where there is no live file of the name, else D89 where it is data.
fn live_program(p: &Platter, name: Name8) -> Result<Entry, Code>
    ensures file { IfOk result (λ e. get (catalogue p.now) name ≡ Some e) }
    ensures allowed { OnOk result (load_refusal (get (catalogue p.now) name) ≡ None) }
    ensures err { IfErr result (λ code. load_refusal (get (catalogue p.now) name) ≡ Some code) }
{
    let Some(e) = look(p, name) else {
        return Err(Code::known(D82_NO_FILE));
    };
    if !e.live {
        return Err(Code::known(D82_NO_FILE));
    }
    if !e.program {
        return Err(Code::known(D89_OTHER_KIND));
    }
    Ok(e)
}

/// The lines to which a program is put: none where it replaces them, else those of the text.
fn base(alloc: Global, t: &Text, replace: bool) -> Result<Gathered, NoMemory>
    ensures { IfOk result (λ base. base.entries ≡ (if replace then [] else t.now.lines)) }
{
    if replace {
        return Ok(BTreeMap::new(alloc));
    }
    lines_of_text(alloc, t)
}

/// The lines of a text after a load.
fn loaded(alloc: Global, t: &Text, program: &Gathered, replace: bool) -> Result<Gathered, NoMemory>
    ensures { IfOk result (λ all. all.entries ≡ loaded replace program.now.entries t.now.lines) }
{
    let mut all = base(alloc, t, replace)?;
    gather_all(alloc, &mut all, program)?;
    Ok(all)
}

/// Gives a text the lines that it has after a load of a program. A01 exactly where they would pass its area. After a fault
/// it is as before.
fn put_program(alloc: Global, t: &mut Text, program: &Gathered, replace: bool) -> Result<(), Fault>
    requires { Ascending 0 program.now.entries }
    ensures ok { OnOk result (t.new ≡ record t.old { lines = loaded replace program.now.entries t.old.lines }) }
    ensures fits { OnOk result (size_of (loaded replace program.now.entries t.old.lines) ≤ t.old.area) }
    ensures err { IfErr result (TooLarge t.old.area (loaded replace program.now.entries t.old.lines)) }
    ensures kept { OnErr result (t.new ≡ t.old) }
{
    let all = match loaded(alloc, t, program, replace) {
        Ok(all) => all,
        Err(_) => return Err(Fault::NoMemory),
    };
    let _first = t.next_after(None);
    if !fits(&all, t.area()) {
        return Err(Fault::Code(Code::known(A01_TEXT_AREA)));
    }
    refill(t, &all);
    Ok(())
}

/// Loads the live program file of a name: its lines replace those of the text, or are put to them. D82 where there is no
/// live file of the name, else D89 where it is data, else D88 where its sectors spell no program, else A01 where the lines
/// would pass the area of the text. After a fault the text is as before.
pub fn load(
    alloc: Global,
    p: &Platter,
    name: Name8,
    t: &mut Text,
    replace: bool,
) -> Result<(), Fault>
    ensures value { OnOk result (text_loaded p.now name replace t.old ≡ Ok t.new) }
    ensures fails { IfErr result (FailsBy (text_loaded p.now name replace t.old)) }
    ensures ok { OnOk result (Loads p.now name replace t.old t.new) }
    ensures err { IfErr result (LoadFails p.now name replace t.old) }
    ensures kept { OnErr result (t.new ≡ t.old) }
{
    let _image = p.image();
    let e = match live_program(p, name) {
        Ok(e) => e,
        Err(code) => return Err(Fault::Code(code)),
    };
    let program = match read_program(alloc, p, e.start, e.used) {
        Ok(program) => program,
        Err(fault) => return Err(fault),
    };
    put_program(alloc, t, &program, replace)
}
