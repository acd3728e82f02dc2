//! Written by viewer/build.py from viewer/: do not edit.

/// A part of the page.
pub(crate) const STYLE: &str = "\
/* Colours: Okabe and Ito. Each meaning has a shape, a pattern or a letter besides its colour. */\
\n\
:root {\n\
\x20 color-scheme: light dark;\n\
\x20 --paper: #ffffff; --card: #f6f6f3; --ink: #1a1a1a; --soft: #595959; --line: #d4d4ce;\n\
\x20 --hot: #c24e00; --hot-paper: #fdebdd; --pick: #0072b2; --bad: #9c2f00; --back: #6d3a8c;\n\
\x20 --free: #e6f2ec; --free-line: #2c7a58; --listed: #fbe7a1; --listed-line: #7a5c00;\n\
\x20 --kernel: #3a3a3a; --kernel-ink: #ffffff; --off: #d9d9dd; --off-line: #8d8d95;\n\
\x20 --movable: #b9a3e3; --unmovable: #43206f; --line-height: 2.6rem;\n\
\x20 --mono: ui-monospace, \"SFMono-Regular\", Menlo, Consolas, \"DejaVu Sans Mono\", monospace;\
\n\
}\n\
@media screen and (prefers-color-scheme: dark) {\n\
\x20 :root {\n\
\x20   --paper: #141517; --card: #1e2023; --ink: #ececec; --soft: #a8a8a8; --line: #3b3e43;\n\
\x20   --hot: #ff9a4d; --hot-paper: #40260f; --pick: #56b4e9; --bad: #ff9a70; --back: #cfa4ea;\n\
\x20   --free: #17352a; --free-line: #4fae86; --listed: #5c4a10; --listed-line: #e2c14c;\n\
\x20   --kernel: #d0d0d0; --kernel-ink: #111111; --off: #34363b; --off-line: #74777f;\n\
\x20   --movable: #6f57a5; --unmovable: #d9c6ff;\n\
\x20 }\n\
}\n\
* { box-sizing: border-box; } [hidden] { display: none !important; }\n\
body { margin: 0; background: var(--paper); color: var(--ink);\n\
\x20 font: 15px/1.45 system-ui, \"Segoe UI\", Roboto, \"Helvetica Neue\", Arial, sans-serif; }\n\
h1 { font-size: 1.05rem; margin: 0; }\n\
h2 { font-size: .82rem; margin: 0 0 .4rem; color: var(--soft); font-weight: 600; }\n\
h3 { font-size: .82rem; margin: .6rem 0 .15rem; font-weight: 600; } h3:first-child { margin-top: \
0; }\n\
p, ul, ol, dl, dd, pre { margin: 0; padding: 0; } ul, ol { list-style: none; }\n\
code, pre, .reply, #lines, .chip, .piece, .block > h3, .tile { font-family: var(--mono); }\n\
button, input, select { font: inherit; color: inherit; background: var(--paper); border: 1px soli\
d var(--line);\n\
\x20 border-radius: 6px; }\n\
button, select { cursor: pointer; } button:hover { border-color: var(--soft); }\n\
input[type=number] { width: 5.2em; padding: 0 .2em 0 .4em; }\n\
:focus-visible { outline: 3px solid var(--pick); outline-offset: 2px; }\n\
small, .quiet { color: var(--soft); font-weight: 400; }\n\
.text { unicode-bidi: isolate; direction: ltr; white-space: pre-wrap; overflow-wrap: anywhere; }\
\n\
/* The bar with the controls. */\n\
header { display: flex; flex-wrap: wrap; gap: .4rem 1.5rem; align-items: center; background: var(\
--card);\n\
\x20 padding: .5rem 1rem; border-bottom: 1px solid var(--line); }\n\
.title p, .controls { font-size: .8rem; color: var(--soft); }\n\
.controls { display: flex; align-items: center; gap: .35rem; flex: 1 1 22rem; min-width: 0; white\
-space: nowrap; }\n\
.controls > * { height: 2rem; } .controls label, .controls span { line-height: 2rem; }\n\
.controls input[type=number] { height: 2rem; }\n\
.controls button { width: 2.25rem; padding: 0; flex: none; color: var(--ink); }\n\
.controls button svg { width: 1rem; height: 1rem; fill: currentColor; vertical-align: -2px; }\n\
[data-go=play] .off, [aria-pressed=true] .on { display: none; }\n\
[aria-pressed=true] .off { display: inline; } .track { flex: 1; min-width: 4rem; margin: 0 .4rem;\
\x20}\n\
#ticks { display: block; width: calc(100% - 16px); height: 14px; margin: 0 8px; overflow: visible\
; contain: strict; }\n\
#ticks .refused { fill: var(--bad); } #ticks .undo { fill: var(--back); }\n\
#slider { display: block; width: 100%; margin: 0; height: 16px; accent-color: var(--pick); }\n\
/* Three columns, each of which scrolls by itself; fewer on narrow screens, below. */\n\
main { display: grid; grid-template-columns: 21.5rem minmax(0, 1fr) 21rem; }\n\
main > * { padding: .75rem 1rem; min-width: 0; } #list { border-right: 1px solid var(--line); }\n\
#panels { border-left: 1px solid var(--line); background: var(--card); font-size: .85rem; }\n\
#panels > section { padding-bottom: .8rem; margin-bottom: .8rem; border-bottom: 1px solid var(--l\
ine); }\n\
@media screen and (min-width: 1100px) {\n\
\x20 body { display: grid; grid-template-rows: auto minmax(0, 1fr); height: 100vh; } main { min-h\
eight: 0; }\n\
\x20 main > * { overflow: auto; } #list { display: flex; flex-direction: column; overflow: hidden\
; }\n\
\x20 #lines { flex: 1; } #stage { padding-top: 0; }\n\
\x20 #now { position: sticky; top: 0; z-index: 5; padding-top: .75rem; background: var(--paper); \
}\n\
}\n\
/* The lines, each of two: what was asked, and the reply. */\n\
#lines { position: relative; overflow: auto; font-size: .78rem; line-height: 1.45; }\n\
#lines li { display: grid; grid-template: 1fr 1fr / 3.4em 1fr; height: var(--line-height); paddin\
g: .15rem .3rem;\n\
\x20 border-radius: 4px; border-left: 3px solid transparent; cursor: pointer; }\n\
#lines li:hover { background: var(--card); }\n\
#lines .text { white-space: pre; overflow: hidden; text-overflow: ellipsis; }\n\
#lines .number { color: var(--soft); text-align: right; padding-right: .7em; }\n\
#lines .reply { grid-column: 2; color: var(--soft); padding-left: 1.2em; }\n\
#lines .call { padding-left: 1.2em; } #lines .refused .reply, .reply.refused { color: var(--bad);\
\x20}\n\
#lines .undo .reply, .reply.undo { color: var(--back); }\n\
.refused .reply::before, .reply.refused::before { content: \"\\2717  \"; }\n\
.undo .reply::before, .reply.undo::before { content: \"\\21b6  \"; }\n\
#lines .dropped .words { text-decoration: line-through; text-decoration-thickness: 1px; }\n\
#lines [aria-selected=true] { background: var(--hot-paper); border-left-color: var(--hot); }\n\
/* What was asked, what that means, and what changed. */\n\
#now { min-height: 7.2rem; } #stage > h2 { margin: .7rem 0 .3rem; }\n\
#asked { display: flex; flex-wrap: wrap; gap: .2rem .8rem; align-items: baseline; }\n\
#asked code { font-size: 1.1rem; font-weight: 600; } #says { margin: .25rem 0; max-width: 62rem; \
}\n\
#output { font-size: .8rem; background: var(--card); padding: .3rem .5rem; overflow: auto; max-he\
ight: 12rem; }\n\
#changes, #legend { display: flex; flex-wrap: wrap; gap: .15rem 1rem; font-size: .85rem; }\n\
#changes b { display: inline-block; min-width: 1.25em; text-align: center; margin-right: .35em; b\
order-radius: 3px;\n\
\x20 background: var(--hot); color: var(--paper); font-family: var(--mono); }\n\
/* The machine: memory blocks, pageblocks, pieces. --cell is the size of a frame. */\n\
#scroll { overflow-x: auto; padding: 8px 4px; } #machine { position: relative; width: max-content\
; }\n\
.blocks { display: grid; gap: calc(var(--gap) + 4px) calc(var(--gap) + 5px); align-items: start;\
\n\
\x20 grid-template-columns: repeat(var(--perRow), max-content); }\n\
.block { border: 1px solid var(--line); border-radius: 8px; padding: 4px 6px 5px; width: var(--bl\
ockWidth);\n\
\x20 height: var(--blockHeight); contain: layout style size; scroll-margin: 9rem 0 1rem; }\n\
.block > h3 { display: flex; gap: .6em; justify-content: space-between; font-size: 12px; line-hei\
ght: 17px;\n\
\x20 margin: 0 0 4px; white-space: nowrap; }\n\
.block.going { border: 1px dashed var(--hot); } .block.changed { box-shadow: 0 0 0 2px var(--hot)\
; }\n\
.block.going > h3 b { color: var(--hot); }\n\
.pageblocks { display: grid; gap: var(--gap); grid-template-columns: repeat(var(--across), max-co\
ntent); }\n\
.pageblock { display: grid; grid-template-columns: repeat(var(--wide), var(--cell)); grid-auto-ro\
ws: var(--cell);\n\
\x20 border-bottom: 3px solid transparent; padding-bottom: 1px; }\n\
.pageblock.movable { border-color: var(--movable); }\n\
.pageblock.unmovable { border-bottom: 4px double var(--unmovable); padding-bottom: 0; }\n\
.piece { position: relative; margin: calc(var(--cell) / 24); border-radius: min(6px, calc(var(--c\
ell) / 4));\n\
\x20 display: grid; place-items: center; line-height: 1.05; font-size: min(13px, calc(var(--cell)\
\x20* .62));\n\
\x20 cursor: pointer; text-align: center; }\n\
.piece i { position: absolute; left: 3px; top: 2px; font-size: 9px; font-style: normal; opacity: \
.75; }\n\
.free { border: max(1px, min(2px, calc(var(--cell) / 14))) solid var(--free-line); color: var(--f\
ree-line);\n\
\x20 background: var(--free); }\n\
.isolated { background: repeating-linear-gradient(-45deg, var(--free) 0 4px, var(--free-line) 4px\
\x205px); }\n\
.isolated span, .isolated i { background: var(--free); padding: 0 2px; border-radius: 3px; opacit\
y: 1; }\n\
.listed { border: 1px solid var(--listed-line); background: var(--listed); border-radius: 50%; }\
\n\
.kernel { color: var(--kernel-ink); background: repeating-conic-gradient(var(--kernel) 0 25%,\n\
\x20 color-mix(in srgb, var(--kernel) 72%, var(--soft)) 0 50%) 0 0 / 6px 6px; }\n\
.offline, .absent { border: 1px dashed var(--off-line); color: var(--soft); }\n\
.offline { background: var(--off); } .page { background: var(--owner); color: #000000; }\n\
.page.striped { background: repeating-linear-gradient(90deg, var(--owner) 0 5px,\n\
\x20 color-mix(in srgb, var(--owner) 55%, #ffffff) 5px 7px); }\n\
.owner0 { --owner: #0072b2; } .owner0.page { color: #ffffff; } .owner1 { --owner: #e69f00; }\n\
.owner2 { --owner: #009e73; } .owner3 { --owner: #cc79a7; } .owner4 { --owner: #56b4e9; }\n\
.owner5 { --owner: #d55e00; } .owner6 { --owner: #f0e442; }\n\
.hot { outline: max(2px, min(3px, calc(var(--cell) / 9))) solid var(--hot); outline-offset: 1px; \
z-index: 1; }\n\
.hot[data-mark]::after { content: attr(data-mark); position: absolute; right: -5px; top: -7px; pa\
dding: 0 3px;\n\
\x20 border-radius: 3px; font-size: 11px; line-height: 1.2; font-weight: 700; background: var(--h\
ot); color: var(--paper); }\n\
.picked { box-shadow: 0 0 0 3px var(--paper), 0 0 0 6px var(--pick); z-index: 2; }\n\
#arrows { position: absolute; inset: 0; width: 100%; height: 100%; pointer-events: none; overflow\
: visible;\n\
\x20 z-index: 3; fill: none; stroke: var(--hot); stroke-width: 2.5; }\n\
#arrows .halo { stroke: var(--paper); stroke-width: 6; }\n\
#arrows .head { fill: var(--hot); stroke: var(--paper); stroke-width: 1; }\n\
@media (forced-colors: active) { .piece, .bar span, .rule { forced-color-adjust: none; } }\n\
/* Large machines: the open memory blocks, and a tile for each. */\n\
#tiles { display: flex; flex-wrap: wrap; gap: 5px; } #tiles:not(:empty) { margin-top: .8rem; }\n\
.tile { width: 5rem; padding: 1px 4px 4px; font-size: .72rem; text-align: left; }\n\
.tile[aria-expanded=true] { border-color: var(--ink); } .tile.changed { outline: 2px solid var(--\
hot); }\n\
.tile .quiet { margin-left: .5em; } .bar { display: flex; height: 8px; margin-top: 2px; overflow:\
\x20hidden; }\n\
.bar span { min-width: 0; border: 0; border-radius: 0; } .bar .page { background: var(--pick); }\
\n\
#legend { margin-top: .6rem; color: var(--soft); gap: .25rem .9rem; }\n\
#legend li { display: flex; align-items: center; gap: .35rem; }\n\
#legend .piece { --cell: 18px; width: 18px; height: 18px; margin: 0; cursor: default; }\n\
#legend .rule { height: 0; border-radius: 0; border-bottom: 3px solid var(--movable); }\n\
#legend .unmovable { border-bottom: 4px double var(--unmovable); } #keys, #made { margin-top: .6r\
em; font-size: .8rem; }\n\
/* The panels. */\n\
dl { display: grid; grid-template-columns: max-content 1fr; gap: .1rem .7rem; } dt { color: var(-\
-soft); }\n\
dd { overflow-wrap: anywhere; }\n\
.chip { padding: 0 .35em; margin: 1px 2px 1px 0; border-radius: 4px; font-size: .76rem; line-heig\
ht: 1.45; }\n\
.chip.new, .chip.moved { border-color: var(--hot); background: var(--hot-paper); font-weight: 700\
; }\n\
.chip.new::before { content: \"+\"; } .chip.moved::before { content: \"~\"; } .chip.dropped { bor\
der-style: dashed; }\n\
.chip.gone { border: 1px dashed var(--hot); color: var(--soft); text-decoration: line-through; }\
\n\
.chip.gone::before { content: \"\\2212\"; display: inline-block; }\n\
.chip.picked { box-shadow: 0 0 0 2px var(--pick); } .chip.more { border-style: dotted; }\n\
.chip.step { display: block; width: 100%; text-align: left; white-space: normal; }\n\
.now { background: var(--hot-paper); border-color: var(--hot); }\n\
#journal ol { list-style: decimal; padding-left: 1.6rem; }\n\
#panels p + p, #panels p + div, #panels div + p, #frame p { margin-top: .35rem; }\n\
#tip { position: fixed; z-index: 9; max-width: 24rem; padding: .45rem .6rem; border-radius: 6px; \
font-size: .8rem;\n\
\x20 pointer-events: none; background: var(--paper); border: 1px solid var(--soft); box-shadow: 0\
\x203px 14px #0005; }\n\
/* Narrow screens: the machine first, and the controls at hand. */\n\
@media screen and (max-width: 1099px) {\n\
\x20 header { position: sticky; top: 0; z-index: 8; }\n\
\x20 .title { flex-basis: 100%; display: flex; flex-wrap: wrap; gap: 0 1rem; align-items: baselin\
e; }\n\
\x20 main { grid-template-columns: minmax(15rem, 20rem) minmax(0, 1fr); }\n\
\x20 #stage { grid-column: 1 / -1; border-bottom: 1px solid var(--line); } #list { order: 1; }\n\
\x20 #panels { order: 2; } #lines { max-height: 80vh; }\n\
}\n\
@media screen and (max-width: 640px) {\n\
\x20 header, main > * { padding: .5rem .6rem; } .controls { flex-wrap: wrap; }\n\
\x20 .track { flex-basis: 60%; order: 1; } #pace { order: 2; } main { display: flex; flex-directi\
on: column; }\n\
\x20 #list { border: 0; } #lines { max-height: 40vh; } #keys { display: none; }\n\
}\n\
@media print {\n\
\x20 * { print-color-adjust: exact; -webkit-print-color-adjust: exact; }\n\
\x20 .controls, #tip, #keys, #panels > section:has(#frame > p:only-child) { display: none !import\
ant; }\n\
\x20 main { display: block; } #list, #panels { border: 0; } #lines, #panels { columns: 2; backgro\
und: none; }\n\
\x20 #lines li { margin: 0 !important; height: auto; } #lines .text { white-space: pre-wrap; }\n\
\x20 #lines li, #panels > section { break-inside: avoid; }\n\
}\n\
";
