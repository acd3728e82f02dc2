//! Written by viewer/build.py from viewer/: do not edit.

/// A part of the page.
pub(crate) const TRACE: &str = "\
'use strict';\n\
// A trace: its rows, the memory after any of them, and the replies that the page tells in advanc\
e.\n\
// Nothing is drawn here: this file and words.js run under node too (check_rules.mjs).\n\
\n\
// A line about the scenario, and one for each row. What else was printed, `output`, has a row of\
\x20its own:\n\
// it is put into the row above.\n\
const [head, ...rows] = document.getElementById('trace').textContent.trim().split('\\n').map(it =\
> JSON.parse(it))\n\
\x20 .filter((row, at, all) => row.output === undefined || !Object.assign(all[at - 1], {output: r\
ow.output}));\n\
const {layout} = head, last = rows.length - 1;\n\
const pageblockFrames = 2 ** layout.order;\n\
const blockFrames = pageblockFrames * layout.pageblocks;\n\
const allFrames = blockFrames * layout.blocks;\n\
const blockOf = frame => Math.floor(frame / blockFrames);\n\
const pageblockOf = frame => Math.floor(frame / pageblockFrames);\n\
const upTo = (n, from = 0) => Array.from({length: n}, (_, at) => from + at);\n\
const pageblocksOf = block => upTo(layout.pageblocks, block * layout.pageblocks);\n\
\n\
// ---- The memory. It is cut into pieces: free blocks, frames on processors' lists, pages, kerne\
l\n\
// blocks, and pageblocks that are not in use. `who` tells two pieces of a kind apart.\n\
const PARTS = ['blocks', 'pageblocks', 'lists', 'kernel', 'pages', 'words', 'settings'];\n\
const memory = Object.fromEntries(PARTS.map(part => [part, new Map()]));\n\
const pieces = new Map(), backs = [];               // by first frame; by row, what takes its cha\
nge back\n\
let reached = -1;                                   // the row that `memory` is after\n\
\n\
// The pieces that a change brings.\n\
function piecesIn({lists = {}, kernel = {}, pages = {}, blocks = {}}) {\n\
\x20 const out = [], add = (kind, frame, order, who, list) => out.push({kind, frame, order, who, \
list});\n\
\x20 for (const [key, {put = []}] of Object.entries(lists)) {\n\
\x20   const [first, second, pool] = key.split(' ');\n\
\x20   const one = pool ? ['listed', 0, `${second} ${pool}`] : ['free', +second, first];\n\
\x20   for (const frame of put) add(one[0], frame, one[1], one[2], key);\n\
\x20 }\n\
\x20 for (const [frame, order] of Object.entries(kernel)) if (order !== null) add('kernel', +fram\
e, order, '');\n\
\x20 for (const [page, frame] of Object.entries(pages)) if (frame !== null) add('page', frame, 0,\
\x20page);\n\
\x20 for (const [block, row] of Object.entries(blocks)) {\n\
\x20   for (const pageblock of row && !row.zone ? pageblocksOf(block) : []) {\n\
\x20     add(row.state, pageblock * pageblockFrames, layout.order, '');\n\
\x20   }\n\
\x20 }\n\
\x20 return out;\n\
}\n\
// Changes the memory, adds the pageblocks that change to `touched`, and returns the change back.\
\n\
function applyChange(change, touched) {\n\
\x20 const back = {};\n\
\x20 for (const [part, values] of Object.entries(change)) {\n\
\x20   back[part] = {};\n\
\x20   for (const [key, value] of Object.entries(values)) {\n\
\x20     const old = memory[part].get(key);\n\
\x20     if (part === 'lists') {\n\
\x20       const {at = 0, drop = 0, put = []} = value, list = old ?? [];\n\
\x20       back.lists[key] = {at, drop: put.length, put: list.slice(at, at + drop)};\n\
\x20       memory.lists.set(key, [...list.slice(0, at), ...put, ...list.slice(at + drop)]);\n\
\x20       continue;\n\
\x20     }\n\
\x20     back[part][key] = old ?? null;\n\
\x20     if (value === null) memory[part].delete(key);\n\
\x20     else memory[part].set(key, value);\n\
\x20   }\n\
\x20 }\n\
\x20 const gone = piecesIn(back), come = piecesIn(change);\n\
\x20 for (const {frame} of gone) pieces.delete(frame);\n\
\x20 for (const piece of come) pieces.set(piece.frame, piece);\n\
\x20 const all = [...[...gone, ...come].map(piece => pageblockOf(piece.frame)),\n\
\x20   ...Object.keys(change.pageblocks ?? {}).map(Number), ...Object.keys(change.blocks ?? {}).f\
latMap(pageblocksOf)];\n\
\x20 for (const pageblock of all) touched.add(pageblock);\n\
\x20 return back;\n\
}\n\
function goTo(index, touched = new Set()) {\n\
\x20 while (reached < index) {\n\
\x20   reached++;\n\
\x20   backs[reached] = applyChange(rows[reached].change ?? {}, touched);\n\
\x20 }\n\
\x20 while (reached > index) applyChange(backs[reached--], touched);\n\
}\n\
const endOf = piece => piece.frame + 2 ** piece.order;\n\
const covers = (piece, frame) => piece.frame <= frame && frame < endOf(piece);\n\
const isIsolated = piece => piece.kind === 'free' && piece.who[0] === 'I';\n\
const isSame = (a, b) => ['kind', 'frame', 'order', 'who'].every(key => a?.[key] === b?.[key]);\n\
\n\
function pieceAt(frame) {\n\
\x20 for (let order = 0; ; order++) {\n\
\x20   const piece = pieces.get(frame - frame % 2 ** order);\n\
\x20   if (piece && covers(piece, frame)) return piece;\n\
\x20 }\n\
}\n\
function piecesFrom(frame, end) {\n\
\x20 const out = [];\n\
\x20 for (; frame < end; frame = endOf(out.at(-1))) out.push(pieces.get(frame));\n\
\x20 return out;\n\
}\n\
const piecesOf = block => piecesFrom(block * blockFrames, (block + 1) * blockFrames);\n\
\n\
const wordsOf = (page, most) => upTo(most).map(at => memory.words.get(`${page} ${at}`) ?? '0');\n\
// The rows that changed what is at a frame, with the piece that it was part of from then on.\n\
function storyOf(frame) {\n\
\x20 const story = [];\n\
\x20 let piece;\n\
\x20 rows.forEach(({change = {}}, at) => {\n\
\x20   const now = piecesIn(change).find(it => covers(it, frame));\n\
\x20   const words = Object.entries(change.words ?? {})\n\
\x20     .filter(([key]) => piece?.kind === 'page' && key.startsWith(`${piece.who} `));\n\
\x20   if (now && !isSame(now, piece)) story.push({at, piece: piece = now});\n\
\x20   else if (words.length) story.push({at, piece, words});\n\
\x20 });\n\
\x20 return story;\n\
}\n\
\n\
// ---- What a step does to a piece, each with its sign.\n\
const MARKS = {\n\
\x20 moved: ['\\u2192', 'page moved in'], taken: ['+', 'handed out'], freed: ['\\u2212', 'freed']\
,\n\
\x20 split: ['\\u00f7', 'split'], joined: ['\\u222a', 'joined'],\n\
\x20 listed: ['\\u203a', 'onto a processor\\u2019s list'],\n\
\x20 drained: ['\\u2039', 'back from a processor\\u2019s list'],\n\
\x20 isolated: ['/', 'isolated'], released: ['o', 'no longer isolated'],\n\
\x20 mobility: ['\\u2260', 'of the other mobility'], written: ['=', 'written'],\n\
\x20 online: ['\\u25b4', 'came online'], unused: ['\\u25be', 'not in use'],\n\
};\n\
\n\
// The marks of each piece that a change brings or writes to, by its first frame.\n\
function marksOf(change, back) {\n\
\x20 const marks = new Map(), gone = piecesIn(back).sort((a, b) => a.frame - b.frame);\n\
\x20 let at = 0;\n\
\x20 for (const piece of piecesIn(change).sort((a, b) => a.frame - b.frame)) {\n\
\x20   while (at < gone.length && endOf(gone[at]) <= piece.frame) at++;\n\
\x20   let end = at;\n\
\x20   while (end < gone.length && gone[end].frame < endOf(piece)) end++;\n\
\x20   const all = marksOfPiece(piece, gone.slice(at, end), back.pages ?? {});\n\
\x20   if (all.length) marks.set(piece.frame, all);\n\
\x20 }\n\
\x20 for (const key of Object.keys(change.words ?? {})) {\n\
\x20   const frame = memory.pages.get(key.replace(/ \\d+$/, ''));\n\
\x20   if (frame !== undefined && !marks.has(frame)) marks.set(frame, ['written']);\n\
\x20 }\n\
\x20 return marks;\n\
}\n\
function marksOfPiece(piece, was, pagesBefore) {\n\
\x20 const had = (...kinds) => was.some(old => kinds.includes(old.kind));\n\
\x20 const is = (...kinds) => kinds.includes(piece.kind);\n\
\x20 const [old] = was, one = was.length === 1;\n\
\x20 if (one && isSame(old, piece)) return [];\n\
\x20 const whole = is('free') && one && old.kind === 'free';        // of one free block\n\
\x20 const moved = is('page') && (pagesBefore[piece.who] ?? null) !== null;\n\
\x20 const marks = {\n\
\x20   moved, taken: is('page', 'kernel') && !moved, freed: is('free', 'listed') && had('page', '\
kernel'),\n\
\x20   split: whole && old.order > piece.order,\n\
\x20   joined: is('free') && was.length > 1 && !had('offline', 'absent'),\n\
\x20   listed: is('listed') && had('free'), drained: is('free') && had('listed'),\n\
\x20   isolated: whole && isIsolated(piece) && !isIsolated(old),\n\
\x20   released: whole && isIsolated(old) && !isIsolated(piece),\n\
\x20   mobility: whole && old.who !== piece.who && !isIsolated(old) && !isIsolated(piece),\n\
\x20   online: !is('offline', 'absent') && had('offline', 'absent'), unused: is('offline', 'absen\
t'),\n\
\x20 };\n\
\x20 return Object.keys(marks).filter(mark => marks[mark]);\n\
}\n\
\n\
// ---- The journal, and replies in advance. check_rules.mjs compares these with traces.\n\
const tops = [], below = [];        // after a row the latest step that counts; below a step the \
next\n\
const serials = [], seals = [];     // after a row the last serial, and the last one sealed\n\
rows.forEach(({serial, drops, sealed, journal}, at) => {\n\
\x20 let top = tops[at - 1] ?? -1;\n\
\x20 if (drops) {\n\
\x20   const gone = new Set(drops);\n\
\x20   while (top >= 0 && gone.has(rows[top].serial)) top = below[top];\n\
\x20 }\n\
\x20 if (sealed !== undefined) top = -1;\n\
\x20 if (journal) {\n\
\x20   below[at] = top;\n\
\x20   top = at;\n\
\x20 }\n\
\x20 tops[at] = top;\n\
\x20 serials[at] = serial ?? serials[at - 1] ?? 0;\n\
\x20 seals[at] = sealed === undefined ? seals[at - 1] ?? 0 : serials[at];\n\
});\n\
const rowOfSerial = new Map(rows.flatMap(({serial}, at) => serial ? [[serial, at]] : []));\n\
// The rows whose steps count after a row, the latest first, as long as `holds` does.\n\
function netAt(index, holds = () => true) {\n\
\x20 const net = [];\n\
\x20 for (let at = tops[index]; at >= 0 && holds(at); at = below[at]) net.push(at);\n\
\x20 return net;\n\
}\n\
const blocksOf = op => [...memory.blocks].filter(([, row]) => row.op === op);\n\
const isFull = index => serials[index] - seals[index] >= layout.history;\n\
// What is in the way of a commit after the reached row: the pieces of going blocks that are not \
free.\n\
function inTheWay(op) {\n\
\x20 return blocksOf(op).filter(([, {wish}]) => wish === 'off').sort(([a], [b]) => a - b)\n\
\x20   .flatMap(([block]) => piecesOf(+block).filter(piece => piece.kind !== 'free'));\n\
}\n\
function commitReply(op) {\n\
\x20 const [piece] = inTheWay(op), done = piece ? `refused NotFree ${piece.frame}` : 'done';\n\
\x20 return isFull(reached) ? 'fault HistoryFull' : blocksOf(op).length ? done : 'refused NoOp';\
\n\
}\n\
function cancelReply(op) {\n\
\x20 if (isFull(reached)) return 'fault HistoryFull';\n\
\x20 if (!blocksOf(op).length) return 'refused NoOp';\n\
\x20 const own = new RegExp(`^(drainfor|migrate) ${op}( |$)`);\n\
\x20 const later = netAt(reached, at => own.test(rows[at].call)).at(-1);\n\
\x20 const begin = later === undefined ? tops[reached] : below[later];\n\
\x20 return rows[begin]?.serial === op ? 'restored' : 'released';\n\
}\n\
function undoReply(serial, index) {\n\
\x20 if (isFull(index)) return 'fault HistoryFull';\n\
\x20 if (serial > serials[index] || serial < seals[index]) return 'refused Gone';\n\
\x20 return `undone ${netAt(index, at => rows[at].serial > serial).length}`;\n\
}\n\
// Whether an undo to a row's serial, after a later row, brings back the state of that row.\n\
function undoRestores(row, index) {\n\
\x20 const serial = serials[row];\n\
\x20 if (!undoReply(serial, index).startsWith('undone')) return false;\n\
\x20 const dropped = netAt(index, at => rows[at].serial > serial).at(-1);\n\
\x20 const top = dropped === undefined ? tops[index] : below[dropped];\n\
\x20 return top === tops[row] || seals[row] < seals[index];\n\
}\n\
const zoneLists = ['NU', 'NM', 'MM', 'IN', 'IM'].flatMap(name => upTo(layout.order + 1).map(n => \
`${name} ${n}`));\n\
const cpuLists = upTo(layout.cpus).flatMap(cpu => ['NU', 'NM', 'MM'].map(pool => `cpu ${cpu} ${po\
ol}`));\n\
";
