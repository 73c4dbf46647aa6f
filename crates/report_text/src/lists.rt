ghost use Rattle.std.specs.Prelude.{◌≡◌, ◌++◌, OnOk};
ghost use Rattle.report_text.specs.Lists.{commas, family_text, numbers_text};

use rep_types::{Family, Name};
use std::io;
use std::io::Write;

fn write_family(out: &mut Vec<u8>, family: &Family) -> io::Result<()>
    ensures { OnOk result (out.new.items ≡ out.old.items ++ family_text family.now) }
{
    let name = &family.name;
    let scope = family.scope;
    write!(out, "{name}/{scope}")
}

pub fn write_families(out: &mut Vec<u8>, families: &[Family]) -> io::Result<()>
    ensures { OnOk result (out.new.items ≡ out.old.items ++ commas family_text families.now) }
{
    let Some((first, rest)) = families.split_first() else {
        return Ok(());
    };
    write_family(out, first)?;
    for family in rest {
        write!(out, ",")?;
        write_family(out, family)?;
    }
    Ok(())
}

pub fn write_names(out: &mut Vec<u8>, names: &[Name]) -> io::Result<()>
    ensures { OnOk result (out.new.items ≡ out.old.items ++ commas (λ name. name) names.now) }
{
    let Some((first, rest)) = names.split_first() else {
        return Ok(());
    };
    write!(out, "{first}")?;
    for name in rest {
        write!(out, ",{name}")?;
    }
    Ok(())
}

pub fn write_numbers(out: &mut Vec<u8>, numbers: &[u32]) -> io::Result<()>
    ensures { OnOk result (out.new.items ≡ out.old.items ++ numbers_text numbers.now) }
{
    let Some((first, rest)) = numbers.split_first() else {
        return write!(out, "-");
    };
    write!(out, "{first}")?;
    for number in rest {
        write!(out, ",{number}")?;
    }
    Ok(())
}
