//! The style of a page.
ghost use Rattle.std.specs.Prelude.{◌≡◌};
ghost use Rattle.bus_outer.specs.Texts.{Adds};
ghost use Rattle.bus_page.specs.Styles as definition;

use bus_outer::{Sink, TextBuffer};

/// The colours of both schemes.
fn colours() -> &'static [u8]
    ensures { result.now ≡ definition.colours_text }
{
    b":root{color-scheme:light dark;--ground:#fff;--words:#222;--small:#555;--grid:#d5d8dd;--sent:#00588f;
--join:#d9e8f4;--gap:#a06c00;--gap-words:#7a5200;--ti:#00694d;--spare:#2f8f70;--synchronizes:#3a9b7c;
--bears:#808894;--limits:#a63a00;--wait:#868e99}
@media screen and (prefers-color-scheme:dark){:root{--ground:#14171b;--words:#e6e8eb;--small:#aab2bd;--grid:#333a43;
--sent:#2a78b4;--join:#12293a;--gap:#e0a030;--gap-words:#e8b75a;--ti:#5fd6b0;--spare:#45b58d;
--synchronizes:#45b58d;--bears:#7d8794;--limits:#e8741e;--wait:#b0bac6}}
"
}

/// The looks of the words and tables of a page.
fn looks() -> &'static [u8]
    ensures { result.now ≡ definition.looks_text }
{
    b"body{background:var(--ground);color:var(--words);
font:14px/1.45 DejaVu Sans,Verdana,Helvetica,sans-serif;max-width:1040px;margin:16px auto;
padding:0 12px}h1{font-size:22px;margin:4px 0}h2{font-size:16px;margin:26px 0 6px}
.refused{color:var(--limits)}p,ul,dl{margin:6px 0}ul{padding-left:20px}
pre,code{font:12px/1.5 DejaVu Sans Mono,Menlo,Consolas,monospace}pre{margin:6px 0;white-space:pre-wrap}
pre.said{font:inherit;max-width:760px}pre.table{columns:4 200px}
dl{display:flex;flex-wrap:wrap;gap:6px 32px}dt{color:var(--small);
font-size:12px}dd{margin:0;font-size:16px;font-weight:bold}table{border-collapse:collapse;
font-variant-numeric:tabular-nums}th,td{padding:2px 14px 2px 0;text-align:right}th{font-weight:normal;
color:var(--small)}tbody tr{border-top:1px solid var(--grid)}svg{display:block;width:100%;height:auto}
.wide{overflow-x:auto}.matrix td,.matrix th{border:1px solid var(--grid);min-width:16px;padding:0 3px;text-align:center;
font-size:11px}.matrix .own{background:var(--grid)}caption{color:var(--small);text-align:left}
"
}

/// The looks of boxes and words in pictures.
fn shapes() -> &'static [u8]
    ensures { result.now ≡ definition.shapes_text }
{
    b"text{font:110px DejaVu Sans Mono,Menlo,Consolas,monospace;fill:var(--words);pointer-events:none}
.small,.detail{font-size:100px;fill:var(--small)}.counts,.detail,.interval-words{text-anchor:end}
.number,.digits{text-anchor:middle}.digits{fill:#fff}.answer{font-weight:bold;fill:var(--limits)}
.gap-words{font-size:100px;fill:var(--gap-words)}.interval-words{font-size:100px;fill:var(--ti)}
.tick{fill:var(--small)}.grid{fill:var(--grid)}.sent{fill:var(--sent)}.join{fill:var(--join)}
.gap{fill:var(--gap)}.ti{fill:var(--ti)}.tolerance,.need{fill:var(--words)}.spare{fill:var(--spare)}
.synchronizes{fill:var(--synchronizes)}.bears{fill:var(--bears)}.limits{fill:var(--limits)}
.wait{fill:var(--wait)}
"
}

/// The looks of a page on paper: one of a table of eight senders takes two sheets.
fn prints() -> &'static [u8]
    ensures { result.now ≡ definition.prints_text }
{
    b"@media print{body{margin:0;padding:0;max-width:none;font-size:10px;line-height:1.4}h1{font-size:17px}
h2{font-size:12.5px;margin:11px 0 3px}p,ul,dl,pre{margin:3px 0}pre,code{font-size:9px;line-height:1.4}
pre.said{font-size:10px;max-width:none}pre.table{columns:5 120px}dl{gap:3px 24px}dt{font-size:9px}
dd{font-size:12px}th,td{padding:1px 12px 0 0}text{font-size:120px}
.small,.detail,.gap-words,.interval-words{font-size:110px}h2,h2+p{break-after:avoid}
svg,tr,li,pre.said{break-inside:avoid}}@page{size:A4;margin:10mm}
"
}

/// Puts the style.
pub(crate) fn put_style<K: Sink>(text: &mut TextBuffer, sink: &mut K)
    ensures { Adds K.held K.faults sink.old sink.new text.old text.new definition.style_text }
{
    text.put(sink, b"<style>\n");
    text.put(sink, colours());
    text.put(sink, looks());
    text.put(sink, shapes());
    text.put(sink, prints());
    text.put(sink, b"</style>\n");
}
