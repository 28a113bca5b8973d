//! A text over a base that gives a name its macro.

use cl_base::{Config, Lent, List, Macro, MacroNo, Mem, Memory, Name, Path, Span};
use cl_define::read_define;
use cl_headers::{HeaderMap, MapView};
use cl_lex::lex;
use cl_macro::{MacroBase, MacroTable};
use cl_pp::{PpAnswer, PpDone, PpState, preprocess};
use std::alloc::Global;
use std::test::Fail;

/// A base that gives one name this macro, by the event of this number.
#[derive(Drop)]
struct OneMacro {
    mac: Macro,
    no: MacroNo,
}

impl MacroBase for OneMacro {
    ghost use Rattle.std.specs.Prelude.{if◌then◌else◌, nat_eq, None, Some};
    ghost use Rattle.std.specs.Cmp.Lexicographic.{pointwise};

    ghost macros = { λ base name. if pointwise nat_eq base.mac.name name then Some base.mac else None };

    ghost events = { λ base name. if pointwise nat_eq base.mac.name name then Some base.no else None };

    fn get(&self, _alloc: Global, name: &Name) -> Mem<Option<Lent<'_, Macro>>> {
        if self.mac.name.bytes() == name.bytes() {
            Ok(Some(Lent::Shared(&self.mac)))
        } else {
            Ok(None)
        }
    }

    fn event(&self, _alloc: Global, name: &Name) -> Mem<Option<MacroNo>> {
        if self.mac.name.bytes() == name.bytes() {
            Ok(Some(self.no))
        } else {
            Ok(None)
        }
    }
}

/// The base that gives a name this macro by its event 6, which was defined in file 3.
fn base_of(alloc: Global, line: &str) -> Mem<OneMacro> {
    let lexed = lex(alloc, line.as_bytes())?;
    let place = Span {
        file: 3,
        from: 8,
        to: 9,
    };
    let Some(mac) = read_define(alloc, lexed.tokens.as_slice(), place)? else {
        return Err(Memory);
    };
    Ok(OneMacro {
        mac,
        no: MacroNo(6),
    })
}

/// What a text comes to behind seven macro events of this base.
fn done_over(alloc: Global, base: &OneMacro, text: &[u8]) -> Mem<PpDone> {
    let path = Path::new(alloc, "/a.c")?;
    let config = Config::new(alloc, List::new(alloc), List::new(alloc))?;
    let headers = HeaderMap::new(alloc)?;
    let mut view = MapView::new(alloc, &headers);
    let start = PpState {
        macros: MacroTable::after(alloc, 7),
        files: List::new(alloc),
        once: List::new(alloc),
        events: 7,
    };
    match preprocess(alloc, start, base, &path, text, &config, &mut view)? {
        PpAnswer::Done(done) => Ok(done),
        PpAnswer::Need(_) => Err(Memory),
    }
}

#[test]
fn names_mean_what_the_base_gives_them(rt: HostRuntime) -> Result<(), Fail> {
    let alloc = rt.alloc();
    let base = base_of(alloc, "M(x) x+x")?;
    let text = b"M(1)\n#ifdef M\ny\n#endif\n#undef M\nM(1)\n#define M 2\nM\n".as_slice();
    let done = done_over(alloc, &base, text)?;
    let mut spelled = String::new(alloc);
    for token in done.tokens.as_slice() {
        spelled.push_str(str::from_utf8(token.text.bytes())?)?;
        spelled.push(' ')?;
    }
    assert!(rt; spelled.as_str() == "1 + 1 y M ( 1 ) 2 ");
    assert!(rt;
        done.events.len() == 2 && done.faults.is_empty(),
        "the base's definition is gone, so the second is new"
    );
    let uses = done.uses.as_slice();
    assert!(rt; uses.len() == 2);
    assert!(rt; uses[0].no.0 == 6, "the base's event");
    assert!(rt;
        uses[1].no.0 == 8,
        "the second one here, where the first has the number 7"
    );
    let again = done_over(
        alloc,
        &base,
        b"#define M(x) x+x\n#define M(x) x\n".as_slice(),
    )?;
    assert!(rt;
        again.events.len() == 1,
        "the same as the base's is no event"
    );
    assert!(rt; again.faults.len() == 1, "another one is told");
    Ok(())
}
