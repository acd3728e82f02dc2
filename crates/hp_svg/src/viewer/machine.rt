//! Written by viewer/build.py from viewer/: do not edit.

/// A part of the page.
pub(crate) const MACHINE: &str = "\
// Draws the current step and what the reader points at. Texts of a trace become text nodes, neve\
r markup.\n\
const byId = id => document.getElementById(id);\n\
const put = (id, ...children) => byId(id).replaceChildren(...children);\n\
const folds = blockFrames * layout.blocks > 8192;   // too large to draw every memory block\n\
let view, current = -1;                   // the current row, its change, that back, its marks; i\
ts number\n\
let playing = 0, noting = 0;              // timers: of play, of the address\n\
let picked = null, hovered = null;        // the frame that is followed, and pointed at\n\
let cursor = 0, told = {};                // the frame that the Tab key leads to; a frame, and it\
s story\n\
let size, sizeKey, room = 0;              // of what is drawn, what it depends on; the width for \
it\n\
const opened = new Set(), unfolded = new Set();     // memory blocks, and long lists, shown on de\
mand\n\
const cards = new Map(), boxes = new Map();         // elements of memory blocks, and of pagebloc\
ks\n\
function make(tag, {aria = {}, data = {}, ...properties} = {}, ...children) {\n\
\x20 const element = Object.assign(document.createElement(tag), properties);\n\
\x20 for (const [name, value] of Object.entries(aria)) element.setAttribute(`aria-${name}`, value\
);\n\
\x20 Object.assign(element.dataset, data);\n\
\x20 element.append(...children);\n\
\x20 return element;\n\
}\n\
function svg(tag, attributes) {\n\
\x20 const element = document.createElementNS('http://www.w3.org/2000/svg', tag);\n\
\x20 for (const [name, value] of Object.entries(attributes)) element.setAttribute(name, value);\n\
\x20 return element;\n\
}\n\
const paragraph = (text, className = '') => make('p', {className}, text);\n\
const quiet = text => make('span', {className: 'quiet'}, text);\n\
const chip = (text, look, data, label = text) =>\n\
\x20 make('button', {className: `chip ${look}`, tabIndex: -1, data, aria: {label}}, text);\n\
const frameChip = ([frame, mark]) => chip(`${frame}`, mark, {frame}, `frame ${frame} ${mark}`);\n\
const stepChip = (at, look) => chip(`${rows[at].serial} ${rows[at].call.split(' ')[0]}`, look, {r\
ow: at});\n\
\n\
// A list of buttons of which one is a stop of the Tab key; arrows lead to the others. Of a long \
list\n\
// it has only the first, the last and some that are marked, until it is unfolded.\n\
function roving(tag, key, items, toElement, isMarked = () => false) {\n\
\x20 const group = make(tag, {data: {roving: key}}), isWhole = items.length <= 24 || unfolded.has\
(key);\n\
\x20 let marked = 12, hidden = 0;\n\
\x20 items.forEach((item, at) => {\n\
\x20   const shows = isWhole || at < 12 || at >= items.length - 3 || (isMarked(item) && marked-- \
> 0);\n\
\x20   if (shows && hidden) group.append(chip(`\\u2026 ${number(hidden)} more`, 'more', {unfold: \
key}));\n\
\x20   hidden = shows ? 0 : hidden + 1;\n\
\x20   if (shows) group.append(toElement(item));\n\
\x20 });\n\
\x20 group.querySelector('button')?.setAttribute('tabindex', 0);\n\
\x20 return group;\n\
}\n\
// Draws, and leads the focus back into the list in which it was.\n\
function keepFocus(draw) {\n\
\x20 const active = document.activeElement, key = active.closest('[data-roving]')?.dataset.roving\
;\n\
\x20 draw();\n\
\x20 if (!key || active.isConnected) return;\n\
\x20 const items = [...document.querySelectorAll(`[data-roving=\"${key}\"] button`)];\n\
\x20 const isOld = ({dataset: {frame, row}}) => frame === active.dataset.frame && row === active.\
dataset.row;\n\
\x20 (items.find(isOld) ?? items[0])?.focus();\n\
}\n\
function show(index) {\n\
\x20 index = Math.max(0, Math.min(last, Math.floor(index) || 0));\n\
\x20 if (index === current) return;\n\
\x20 const stale = new Set([...view?.marks.keys() ?? []].map(pageblockOf)\n\
\x20   .concat(Object.keys(view?.change.blocks ?? {}).flatMap(pageblocksOf)));\n\
\x20 goTo(index, stale);\n\
\x20 const row = rows[index], [change, back] = index && row.change ? [row.change, backs[index]] :\
\x20[{}, {}];\n\
\x20 current = index;\n\
\x20 view = {row, change, back, marks: marksOf(change, back)};\n\
\x20 for (const frame of view.marks.keys()) stale.add(pageblockOf(frame));\n\
\x20 clearTimeout(noting);                             // browsers allow so many a second\n\
\x20 noting = setTimeout(() => history.replaceState(null, '', `#step=${current}`), 200);\n\
\x20 drawLines(true);                                  // first, since it asks for sizes\n\
\x20 drawMachine(stale);\n\
\x20 drawStep();\n\
\x20 keepFocus(drawPanels);\n\
\x20 drawFrame(), drawArrows();\n\
\x20 const changed = matchMedia('(min-width: 1100px)').matches && document.querySelector('.blocks\
\x20.hot');\n\
\x20 if (changed) changed.closest('.block').scrollIntoView({block: 'nearest'});\n\
}\n\
\n\
// ---- The step, and the lines.\n\
const kindOf = row => row.drops ? 'undo' : row.answer?.startsWith('refused') ? 'refused'\n\
\x20 : row.journal ? 'step' : 'other';\n\
const askedText = row => shown(row.text ?? row.call);\n\
const replyText = row => row.answer ? `${row.serial}: ${row.answer}` : '';\n\
const firstOutput = row => shown((row.output ?? '').split('\\n')[0]).replace(/ +/g, ' ');\n\
\n\
// The pieces that have a mark; of those freed or drained what they were, and not what they joine\
d.\n\
function marked(mark) {\n\
\x20 const {marks, back} = view, has = frame => marks.get(frame)?.includes(mark);\n\
\x20 const was = {freed: ['page', 'kernel'], drained: ['listed']}[mark] ?? [], now = [...marks.ke\
ys()];\n\
\x20 return was.length ? piecesIn(back).filter(it => was.includes(it.kind) && has(pieceAt(it.fram\
e).frame))\n\
\x20   : now.filter(has).map(frame => pieces.get(frame));\n\
}\n\
function drawStep() {\n\
\x20 const {row, back} = view, reply = make('span', {className: `reply ${kindOf(row)}`}, replyTex\
t(row));\n\
\x20 const also = !row.text ? `by processor ${row.cpu}`\n\
\x20   : row.call && !row.text.endsWith(row.call) ? `that is, ${row.call}` : '';\n\
\x20 put('asked', quiet(row.line ? `Line ${number(row.line)}` : 'Start'),\n\
\x20   make('code', {className: 'text'}, askedText(row)), quiet(also), reply);\n\
\x20 put('says', sayRow(row, (part, key) => back[part]?.[key]));\n\
\x20 byId('output').hidden = !row.output;\n\
\x20 put('output', (row.output ?? '').split('\\n').map(shown).join('\\n'));\n\
\x20 put('changes', ...Object.entries(MARKS).flatMap(([mark, [sign, text]]) => {\n\
\x20   const all = marked(mark), places = all.slice(0, 12).map(it => short(it.frame, it.order)).j\
oin(', ');\n\
\x20   const rest = all.length > 12 ? `, and ${all.length - 12} more` : '';\n\
\x20   return all.length ? make('li', {}, make('b', {}, sign), `${text}: ${places}${rest}`) : [];\
\n\
\x20 }));\n\
}\n\
// The lines that are in sight, and some around them: each is as high as all others.\n\
function drawLines(moves, from, end) {\n\
\x20 const list = byId('lines'), seen = list.clientHeight, rem = getComputedStyle(document.docume\
ntElement).fontSize;\n\
\x20 const high = 2.6 * parseFloat(rem), top = current * high, counts = new Set(netAt(current));\
\n\
\x20 if (!list.firstChild) list.appendChild(make('li')).style.height = `${rows.length * high}px`;\
\x20  // to scroll\n\
\x20 if (moves && (top < list.scrollTop || top + high > list.scrollTop + seen)) list.scrollTop = \
top - seen / 2;\n\
\x20 from ??= Math.max(0, Math.floor(list.scrollTop / high / 8) * 8 - 8);\n\
\x20 const some = rows.slice(from, end ?? from + Math.ceil(seen / high) + 24), key = `${from} ${s\
ome.length} ${high}`;\n\
\x20 if (list.dataset.key !== key) {\n\
\x20   list.dataset.key = key;\n\
\x20   list.replaceChildren(...some.map((row, n) => {\n\
\x20     const words = askedText(row), reply = [replyText(row), firstOutput(row)].filter(Boolean)\
.join('; ');\n\
\x20     const aria = {posinset: from + n + 1, setsize: rows.length}, data = {row: from + n}, id \
= `row${from + n}`;\n\
\x20     return make('li', {className: kindOf(row), id, role: 'option', title: `${words}\\n${repl\
y}`, aria, data},\n\
\x20       make('span', {className: 'number'}, row.text ? `${row.line}` : ''),\n\
\x20       make('span', {className: `words text ${row.text ? '' : 'call'}`}, words),\n\
\x20       make('span', {className: 'reply text'}, reply));\n\
\x20   }));\n\
\x20   list.firstChild.style.marginTop = `${from * high}px`;         // padding would make the li\
st as high\n\
\x20   list.lastChild.style.marginBottom = `${(rows.length - from - some.length) * high}px`;\n\
\x20 }\n\
\x20 for (const element of list.children) {\n\
\x20   const at = +element.dataset.row;\n\
\x20   element.ariaSelected = at === current;\n\
\x20   element.classList.toggle('dropped', Boolean(at < current && rows[at].journal && !counts.ha\
s(at)));\n\
\x20 }\n\
\x20 list.setAttribute('aria-activedescendant', `row${current}`);\n\
\x20 byId('slider').value = byId('step').value = current;\n\
\x20 byId('slider').ariaValueText = `step ${current} of ${last}: ${askedText(view.row)}, ${replyT\
ext(view.row)}`;\n\
}\n\
\n\
// ---- The machine.\n\
// The largest cells with which this many memory blocks fit the stage, else some that can be read\
. All\n\
// widths are powers of two, so that each free block is a rectangle.\n\
function fit(blocks) {\n\
\x20 const height = Math.max(300, innerHeight - 400), sizes = [56, 48, 40, 34, 28, 24, 20, 17, 14\
, 12, 10, 8];\n\
\x20 const layouts = cell => {\n\
\x20   const out = [], gap = cell < 15 ? 4 : 8;\n\
\x20   for (let columns = 2 ** Math.min(layout.order, 3); columns <= blockFrames; columns *= 2) {\
\n\
\x20     const wide = Math.min(columns, pageblockFrames), across = columns / wide;\n\
\x20     const blockWidth = Math.max(cell < 28 ? 82 : 140, cell * columns + gap * (across - 1) + \
14);\n\
\x20     const blockHeight = cell * blockFrames / columns + (gap + 4) * layout.pageblocks / acros\
s - gap + 35;\n\
\x20     const most = Math.max(1, Math.floor((room + gap + 5) / (blockWidth + gap + 5)));\n\
\x20     const lines = Math.ceil(blocks / most), perRow = Math.ceil(blocks / lines);\n\
\x20     const high = lines * (blockHeight + gap + 4), fits = blockWidth <= room && high <= heigh\
t;\n\
\x20     if (!out.length || blockWidth <= room) {\n\
\x20       out.push({cell, gap, wide, across, blockWidth, blockHeight, perRow, high, fits});\n\
\x20     }\n\
\x20   }\n\
\x20   return out.sort((a, b) => a.high - b.high || b.wide - a.wide)[0];\n\
\x20 };\n\
\x20 const all = sizes.map(layouts);\n\
\x20 return all.find(it => it.fits) ?? all.find(it => it.cell <= 12 && it.blockWidth <= room) ?? \
all.at(-1);\n\
}\n\
const rowOf = block => memory.blocks.get(`${block}`);\n\
const pageClass = owner => `page owner${owner % 7}${owner > 6 ? ' striped' : ''}`;\n\
const letterOf = owner => 'abcdefghijklmnopqrstuvwxyz'[owner % 26];\n\
const stateName = (state, long) => ({normal: long ? 'Normal' : 'N', movable: long ? 'Movable' : '\
M'}[state] ?? state);\n\
\n\
// A memory block's frames by their places.\n\
function countsOf(block) {\n\
\x20 const counts = {page: 0, kernel: 0, listed: 0, free: 0, offline: 0, absent: 0};\n\
\x20 for (const piece of piecesOf(block)) counts[piece.kind] += 2 ** piece.order;\n\
\x20 return Object.entries(counts).filter(([, n]) => n);\n\
}\n\
function aboutBlock(block) {\n\
\x20 const names = {page: 'with pages', listed: 'on processors\\u2019 lists'};\n\
\x20 const counts = countsOf(block).map(([kind, n]) => `${number(n)} ${names[kind] ?? kind}`);\n\
\x20 return `Memory block ${block}, ${blockText(rowOf(block))}; frames: ${counts.join(', ')}`;\n\
}\n\
// Its number, its zone or state, and where it is to go.\n\
function titleOf(block, width) {\n\
\x20 const {state, zone, wish} = rowOf(block), long = width >= 200;\n\
\x20 const goal = wish ? ` \\u2192 ${stateName(wish, long)}` : '';\n\
\x20 return [make('span', {}, width >= 140 ? `block ${block}` : `${block}`),\n\
\x20   make('span', {className: 'quiet'}, stateName(zone ?? state, long), make('b', {}, goal))];\
\n\
}\n\
function drawPiece(it) {\n\
\x20 const {kind, frame, order, who} = it, {cell, wide} = size, marks = view.marks.get(frame);\n\
\x20 const at = frame % pageblockFrames, columns = Math.min(2 ** order, wide), roomy = cell >= 28\
;\n\
\x20 const [name, page] = who.split(' '), owner = head.names.indexOf(name), letter = letterOf(own\
er);\n\
\x20 const text = cell < 12 ? '' : {\n\
\x20   free: columns * cell > 80 ? `order ${order}` : order || roomy ? `${order}` : '',\n\
\x20   listed: name, kernel: 'K',\n\
\x20   page: [`${name} ${page}`, `${letter} ${page}`].find(it => roomy && it.length * 8 < cell) ?\
? letter,\n\
\x20 }[kind] ?? '';\n\
\x20 const look = {page: pageClass(owner), free: isIsolated(it) ? 'free isolated' : 'free'}[kind]\
\x20?? kind;\n\
\x20 const piece = make('span', {className: `piece ${look} ${marks ? 'hot' : ''}`, role: 'img', t\
abIndex: -1,\n\
\x20   data: {frame}, aria: {label: `${span(frame, order)}: ${placeText(it)}`, describedby: 'tip'\
}});\n\
\x20 if (roomy) piece.append(make('i', {}, `${frame}`));\n\
\x20 if (text) piece.append(make('span', {}, text));\n\
\x20 if (marks && cell >= 14) piece.dataset.mark = marks.map(mark => MARKS[mark][0]).join('');\n\
\x20 piece.style.gridArea = `${Math.floor(at / wide) + 1} / ${at % wide + 1} / `\n\
\x20   + `span ${2 ** order / columns} / span ${columns}`;\n\
\x20 return piece;\n\
}\n\
function drawBox(pageblock) {\n\
\x20 const {zone} = rowOf(Math.floor(pageblock / layout.pageblocks));\n\
\x20 const mobility = zone ? memory.pageblocks.get(`${pageblock}`) ?? 'movable' : '';\n\
\x20 const all = piecesFrom(pageblock * pageblockFrames, (pageblock + 1) * pageblockFrames);\n\
\x20 const box = make('div', {className: `pageblock ${mobility}`}, ...all.map(drawPiece));\n\
\x20 boxes.get(pageblock)?.replaceWith(box);\n\
\x20 boxes.set(pageblock, box);\n\
\x20 return box;\n\
}\n\
function drawTitle(block) {\n\
\x20 const card = cards.get(block), changed = view.change.blocks?.[block] ? 'changed' : '';\n\
\x20 card.className = `block ${rowOf(block).state} ${changed}`;\n\
\x20 card.setAttribute('aria-label', aboutBlock(block));\n\
\x20 card.firstChild.replaceChildren(...titleOf(block, size.blockWidth));\n\
\x20 return card;\n\
}\n\
function drawCard(block) {\n\
\x20 cards.set(block, make('section', {role: 'group'}, make('h3'),\n\
\x20   make('div', {className: 'pageblocks'}, ...pageblocksOf(block).map(drawBox))));\n\
\x20 return drawTitle(block);\n\
}\n\
function drawTile(block) {\n\
\x20 const bar = make('span', {className: 'bar'}), label = aboutBlock(block), expanded = cards.ha\
s(block);\n\
\x20 for (const [kind, n] of countsOf(block)) {\n\
\x20   bar.append(make('span', {className: kind}));\n\
\x20   bar.lastChild.style.flexGrow = n;\n\
\x20 }\n\
\x20 const className = `tile ${changedBlocks().includes(block) ? 'changed' : ''}`, aria = {expand\
ed, label};\n\
\x20 return make('button', {className, title: label, data: {block}, aria}, ...titleOf(block, 0), \
bar);\n\
}\n\
const changedBlocks = () => [...Object.keys(view.change.blocks ?? {}), ...[...view.marks.keys()].\
map(blockOf)]\n\
\x20 .map(Number).sort((a, b) => a - b);\n\
// Draws what is stale, or all anew if the size changes. Of a large machine it draws a tile for e\
ach memory\n\
// block, and in full up to four that the step changes, that of the followed frame, and those ope\
ned by hand.\n\
function drawMachine(stale = []) {\n\
\x20 const machine = byId('machine'), hadFocus = machine.contains(document.activeElement);\n\
\x20 const some = [...new Set(changedBlocks())].slice(0, 4).concat(picked === null ? [] : blockOf\
(picked), ...opened);\n\
\x20 const drawn = upTo(layout.blocks).filter(block => !folds || some.includes(block));\n\
\x20 const key = [room, innerHeight, ...drawn].join();\n\
\x20 const blocks = new Set([...stale].map(it => Math.floor(it / layout.pageblocks)));\n\
\x20 if (key !== sizeKey) {\n\
\x20   for (const block of [...cards.keys(), ...drawn]) blocks.add(block);\n\
\x20   sizeKey = key;\n\
\x20   size = fit(Math.max(1, drawn.length));\n\
\x20   cards.clear(), boxes.clear();\n\
\x20   machine.replaceChildren(make('div', {className: 'blocks'}, ...drawn.map(drawCard)));\n\
\x20   for (const [name, n] of Object.entries(size)) {\n\
\x20     machine.style.setProperty(`--${name}`, ['wide', 'across', 'perRow'].includes(name) ? n :\
\x20`${n}px`);\n\
\x20   }\n\
\x20 } else {\n\
\x20   for (const pageblock of stale) if (boxes.has(pageblock)) drawBox(pageblock);\n\
\x20   for (const block of blocks) if (cards.has(block)) drawTitle(block);\n\
\x20 }\n\
\x20 const tiles = byId('tiles');\n\
\x20 if (folds && !tiles.firstChild) put('tiles', ...upTo(layout.blocks).map(drawTile));\n\
\x20 else if (folds) for (const block of blocks) tiles.children[block].replaceWith(drawTile(block\
));\n\
\x20 moveCursor(cursor, hadFocus);\n\
}\n\
// An arrow from the old frame of each page that moved to its new one.\n\
function drawArrows() {\n\
\x20 const {pages: old = {}} = view.back, {cell, wide} = size, arrows = svg('svg', {id: 'arrows',\
\x20'aria-hidden': true});\n\
\x20 const moved = [...view.marks.keys()].filter(frame => view.marks.get(frame).includes('moved')\
).slice(0, 40);\n\
\x20 byId('arrows')?.remove();\n\
\x20 if (!moved.length) return;\n\
\x20 const {left, top} = byId('machine').getBoundingClientRect();\n\
\x20 const centre = at => {\n\
\x20   const box = boxes.get(pageblockOf(at))?.getBoundingClientRect(), n = at % pageblockFrames;\
\n\
\x20   return box && [box.left - left + (n % wide + .5) * cell, box.top - top + (Math.floor(n / w\
ide) + .5) * cell];\n\
\x20 };\n\
\x20 for (const [from, to] of moved.map(at => [centre(old[pieces.get(at).who]), centre(at)])) {\n\
\x20   if (!from || !to) continue;\n\
\x20   const [dx, dy] = [to[0] - from[0], to[1] - from[1]], bend = dx < 0 ? -.2 : .2;\n\
\x20   const over = [from[0] + dx / 2 + dy * bend, from[1] + dy / 2 - dx * bend];\n\
\x20   const part = Math.min(.4, cell * .42 / Math.hypot(to[0] - over[0], to[1] - over[1]));\n\
\x20   const tip = to.map((x, i) => x + (over[i] - x) * part), d = `M${from} Q${over} ${tip}`;\n\
\x20   const turn = Math.atan2(to[1] - over[1], to[0] - over[0]) * 180 / Math.PI;\n\
\x20   arrows.append(svg('path', {d, class: 'halo'}), svg('path', {d}),\n\
\x20     svg('path', {d: 'M3 0L-9 -6V6Z', class: 'head', transform: `translate(${tip}) rotate(${t\
urn})`}));\n\
\x20 }\n\
\x20 byId('machine').append(arrows);\n\
}\n\
";
