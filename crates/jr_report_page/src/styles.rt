// How a page looks: by day and by night as the reader's setting is, narrow and on paper. The colours of the states differ in brightness
// and between blue and orange, so that they are told apart without red and green.
pub(crate) const STYLE: &str = "
:root { color-scheme: light dark; --ink: #1b1f24; --paper: #ffffff; --line: #c9ced6; --soft: #f3f5f8; --none: #e9ecf0; }
@media (prefers-color-scheme: dark) {
:root { --ink: #e6e8eb; --paper: #14171b; --line: #3a4049; --soft: #1d2127; --none: #262b32; }
}
body { margin: 1.5rem auto; padding: 0 1rem; max-width: 68rem; background: var(--paper); color: var(--ink);
font: 15px/1.45 system-ui, sans-serif; }
h1 { font-size: 1.6rem; margin: 0 0 .5rem; padding: .4rem .8rem; border-left: .5rem solid #56b4e9; background: var(--soft); }
h1.found { border-color: #d55e00; }
h2 { font-size: 1.1rem; margin: 1.6rem 0 .4rem; overflow-wrap: anywhere; }
.table { overflow-x: auto; }
table { border-collapse: collapse; font-variant-numeric: tabular-nums; }
th, td { padding: .15rem .6rem; border-bottom: 1px solid var(--line); text-align: right; white-space: nowrap; }
.totals td:first-child, .plan td:first-child, .faults td:first-child, .chunks td:first-child, .unread td:first-child { text-align: left; }
.map { display: block; width: 100%; height: auto; }
.shapes { position: absolute; }
.sign { font: bold 6.6px system-ui, sans-serif; text-anchor: middle; }
.B rect { fill: #d55e00; } .B text { fill: #ffffff; }
.F rect { fill: #7b2d8b; } .F text { fill: #ffffff; }
.v rect { fill: #6c6a66; } .v text { fill: #ffffff; }
.u rect { fill: #f0e442; } .u text { fill: #1b1f24; }
.s rect { fill: #a9b1bb; } .s text { fill: #1b1f24; }
.g rect { fill: #9fd3f2; } .g text { fill: #1f5f86; }
.r rect { fill: #0072b2; } .r text { fill: #ffffff; }
.n rect { fill: var(--none); }
.legend { list-style: none; margin: .8rem 0; padding: 0; display: flex; flex-wrap: wrap; gap: .2rem 1.4rem; font-size: .9rem; }
.legend svg { width: 1.1em; height: 1.1em; vertical-align: -.2em; margin-right: .4em; }
@media (max-width: 600px) { .sign { display: none; } body { margin: .8rem auto; } }
@media print { @page { margin: 12mm; } :root { font-size: 9px; } body { margin: 0; padding: 0; max-width: none; font-size: 9px;
line-height: 1.2; } h2 { margin: .8rem 0 .2rem; break-after: avoid; } th, td { padding: .05rem .6rem; } .legend { margin: .6rem 0; }
.map, tr { break-inside: avoid; } * { print-color-adjust: exact; } }
";
