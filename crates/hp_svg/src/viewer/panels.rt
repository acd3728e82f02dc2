//! Written by viewer/build.py from viewer/: do not edit.

/// A part of the page.
pub(crate) const PANELS: &str = "\
// Draws the panels beside the memory, and takes keys, buttons, the pointer and the address.\n\
function aboutFrame(frame) {\n\
\x20 const piece = pieceAt(frame), row = rowOf(blockOf(frame)), {kind, order, who} = piece;\n\
\x20 const list = memory.lists.get(piece.list), buddy = piece.frame ^ 2 ** order;\n\
\x20 const more = layout.words > 16 ? ` and ${layout.words - 16} more` : '';\n\
\x20 const facts = [['Frame', `${frame}, in pageblock ${pageblockOf(frame)} of memory block ${blo\
ckOf(frame)}`],\n\
\x20   ['Block', blockText(row)], ['Place', placeText(piece)]];\n\
\x20 if (row.zone) facts.splice(2, 0, ['Pageblock', memory.pageblocks.get(`${pageblockOf(frame)}`\
) ?? 'movable']);\n\
\x20 if (list) facts.push(['In its list', `${list.indexOf(piece.frame) + 1} of ${list.length} fro\
m the front`]);\n\
\x20 if (kind === 'free' && order < layout.order) facts.push(['Buddy', `${span(buddy, order)}: `\
\n\
\x20   + (pieceAt(buddy).kind === 'free' ? 'not free as a whole' : placeText(pieceAt(buddy)))]);\
\n\
\x20 if (kind === 'page') facts.push(['Words', wordsOf(who, Math.min(16, layout.words)).join(' ')\
\x20+ more]);\n\
\x20 return make('dl', {}, ...facts.flatMap(([term, text]) => [make('dt', {}, term), make('dd', {\
}, text)]));\n\
}\n\
// What became of a frame: the steps that touched it, the latest up to now marked; in a tip those\
\x20near it.\n\
function tellStory(frame, isTip) {\n\
\x20 if (told.frame !== frame) told = {frame, story: storyOf(frame)};\n\
\x20 const {story} = told, now = story.findLastIndex(({at}) => at <= current);\n\
\x20 const lineOf = ({line, text, call}) => line ? `line ${line}${text ? '' : `, ${call}`}` : 'bo\
ot';\n\
\x20 const items = story.map(({at, piece, words}, n) => ({row: at, far: n - now,\n\
\x20   text: `${lineOf(rows[at])}: ${words ? wordsText(words) : placeText(piece)}`}));\n\
\x20 const toStep = ({row, far, text}) => chip(text, far ? 'step' : 'step now', {row});\n\
\x20 const toLine = ({far, text}) => paragraph(text, far > 0 ? 'quiet' : far ? '' : 'now');\n\
\x20 return [paragraph(`Touched by ${count(story.length, 'step')}:`, 'quiet'),\n\
\x20   ...isTip ? items.filter(({far}) => far > -4 && far < 3).map(toLine)\n\
\x20     : [roving('div', 'story', items, toStep, ({far}) => Math.abs(far) < 4)]];\n\
}\n\
function drawFrame() {\n\
\x20 keepFocus(() => put('frame', ...picked !== null ? [aboutFrame(picked), ...tellStory(picked)]\
\x20: [paragraph(\n\
\x20   'Point at a frame to see which steps touched it. Choose it, or give its number, to follow \
it here.', 'quiet')]));\n\
\x20 if (document.activeElement !== byId('follow')) byId('follow').value = picked ?? '';\n\
\x20 if (hovered !== null) put('tip', aboutFrame(hovered), ...tellStory(hovered, true));\n\
\x20 const frame = hovered ?? picked, first = frame === null ? null : pieceAt(frame).frame;\n\
\x20 for (const element of document.querySelectorAll('.picked')) element.classList.remove('picked\
');\n\
\x20 for (const element of document.querySelectorAll(`[data-frame=\"${first}\"]`)) element.classL\
ist.add('picked');\n\
}\n\
function drawOperations() {\n\
\x20 const operations = new Set([...memory.blocks.values()].flatMap(({op}) => op ?? []));\n\
\x20 const lineOf = op => rowOfSerial.has(op) ? `begun in line ${rows[rowOfSerial.get(op)].line}`\
\x20: '';\n\
\x20 const out = [...operations].flatMap(op => [make('h3', {}, `Operation ${op} `, quiet(lineOf(o\
p))),\n\
\x20   ...blocksOf(op).map(([block, row]) => paragraph(`Block ${block}, now ${row.state}, is to $\
{wishText(row.wish)}.`)),\n\
\x20   paragraph(sayCommit(op)), paragraph(sayCancel(op))]);\n\
\x20 put('operations', ...out.length ? out : [paragraph('None is live.', 'quiet')]);\n\
}\n\
// A list's frames, each with what the step did to it; those that left it stand where they were.\
\n\
function listItems(key) {\n\
\x20 const list = memory.lists.get(key) ?? [], {at = 0, put: came = []} = view.change.lists?.[key\
] ?? {};\n\
\x20 const left = view.back.lists?.[key]?.put ?? [], wasHere = new Set(left), isHere = new Set(ca\
me);\n\
\x20 const marked = came.map(frame => [frame, wasHere.has(frame) ? 'moved' : 'new']);\n\
\x20 const gone = left.filter(frame => !isHere.has(frame)).map(frame => [frame, 'gone']);\n\
\x20 const plain = frame => [frame, ''];\n\
\x20 return [...list.slice(0, at).map(plain), ...gone, ...marked, ...list.slice(at + came.length)\
.map(plain)];\n\
}\n\
function drawLists(id, keys, titleOf, nameOf) {\n\
\x20 const out = Object.entries(Object.groupBy(keys, titleOf)).flatMap(([title, keys]) => {\n\
\x20   const lists = keys.map(key => [key, listItems(key)]).filter(([, items]) => items.length);\
\n\
\x20   const dl = make('dl', {}, ...lists.flatMap(([key, items]) => {\n\
\x20     const list = roving('dd', key, items, frameChip, item => item[1]);\n\
\x20     if (items.every(item => item[1] === 'gone')) list.append(quiet('empty'));\n\
\x20     return [make('dt', {}, nameOf(key)), list];\n\
\x20   }));\n\
\x20   return lists.length ? [make('h3', {}, `${title} `, quiet(CLASSES[title] ?? '')), dl] : [];\
\n\
\x20 });\n\
\x20 put(id, ...out.length ? out : [paragraph('All are empty.', 'quiet')]);\n\
}\n\
function drawJournal() {\n\
\x20 const {line, answer, drops, journal, sealed} = view.row;\n\
\x20 const toItem = ([name, ...rest]) => make('li', {}, start(DELTAS[name]?.(...rest) ?? name));\
\n\
\x20 const known = (drops ?? []).toReversed().flatMap(serial => rowOfSerial.get(serial) ?? []);\n\
\x20 put('journal', paragraph(journal ? journal.length ? `${count(journal.length, 'delta')}, whic\
h an undo runs backwards.`\n\
\x20   : 'An entry without deltas: there was nothing to change.'\n\
\x20   : drops ? `None. ${count(drops.length, 'entry', 'entries')} of earlier steps ran backwards\
, in this order:`\n\
\x20   : !line ? 'None: the history begins here.'\n\
\x20   : sealed !== undefined ? 'None: the journal is empty now.'\n\
\x20   : answer?.startsWith('refused') ? 'None: a refusal changes nothing, so there is nothing to\
\x20undo.'\n\
\x20   : answer ? 'None: a read is no step.' : 'None: this made no record.'),\n\
\x20 drops ? roving('div', 'drops', known, at => stepChip(at, '')) : roving('ol', 'journal', jour\
nal ?? [], toItem));\n\
}\n\
function drawUndo() {\n\
\x20 const serial = serials[current], reply = undoReply(serial, last), isUndone = reply.startsWit\
h('undone');\n\
\x20 const goes = isUndone ? netAt(last, at => rows[at].serial > serial) : [], text = reply === '\
refused Gone'\n\
\x20   ? ', as the history was sealed in between.' : !isUndone ? ', as the history is full.'\n\
\x20   : undoRestores(current, last) ? ' and bring exactly this state back.'\n\
\x20   : ', but not bring this state back: steps that led to it were undone later.';\n\
\x20 put('undo', paragraph(`At the end of the trace, undo ${serial} would reply ${reply}${text}`\
\n\
\x20   + (goes.length ? ' It would drop, the latest first:' : '')),\n\
\x20 roving('div', 'goes', goes, at => stepChip(at, 'dropped')));\n\
}\n\
function drawPanels() {\n\
\x20 for (const draw of [drawOperations, drawJournal, drawUndo]) draw();\n\
\x20 drawLists('free', zoneLists, key => key.slice(0, 2), key => `order ${key.slice(3)}`);\n\
\x20 drawLists('cpus', cpuLists, key => `Processor ${key.split(' ')[1]}`, key => key.split(' ')[2\
]);\n\
}\n\
// What no step changes: the title, the ends of the slider, its marks, and the legend.\n\
function drawFrameOfAll() {\n\
\x20 put('layout', `${count(layout.blocks, 'memory block')}, each ${count(layout.pageblocks, 'pag\
eblock')} of `\n\
\x20   + `${count(pageblockFrames, 'frame')}; ${count(layout.cpus, 'processor')}`);\n\
\x20 put('form', head.trace);\n\
\x20 put('steps', `of ${number(byId('slider').max = byId('step').max = last)}`);\n\
\x20 byId('follow').max = blockFrames * layout.blocks - 1;\n\
\x20 byId('ticks').setAttribute('viewBox', `0 0 ${Math.max(1, last)} 16`);\n\
\x20 const thick = last / 250, places = [...new Set(upTo(251).map(n => Math.ceil(n * thick)))];\n\
\x20 for (const [kind, high] of [['refused', 6], ['undo', 12]]) {\n\
\x20   const all = places.filter((from, n) => rows.slice(from, places[n + 1]).some(row => kindOf(\
row) === kind));\n\
\x20   const toBar = at => `M${at - thick / 2} 14h${thick}v${-high}h${-thick}z`;\n\
\x20   byId('ticks').append(svg('path', {d: all.map(toBar).join(''), class: kind}));\n\
\x20 }\n\
\x20 const owners = head.names.slice(0, 14).map((name, at) => [pageClass(at), `page of ${name}`, \
letterOf(at)]);\n\
\x20 put('legend', ...[['free', 'free block, its order', '2'], ['free isolated', 'the same, isola\
ted'],\n\
\x20   ['listed', 'on the list of processor 0', '0'], ...owners, ['kernel', 'kernel', 'K'],\n\
\x20   ['offline', 'offline'], ['absent', 'absent'], ['hot', 'changed in this step'],\n\
\x20   ['rule', 'movable pageblock'], ['rule unmovable', 'unmovable pageblock']].map(([look, text\
, label = '']) =>\n\
\x20   make('li', {}, make('span', {className: `piece ${look}`}, make('span', {}, label)), text))\
);\n\
}\n\
\n\
// ---- Control: buttons, slider, keys, pointer, address.\n\
\n\
const ways = {first: () => 0, back: () => current - 1, next: () => current + 1, last: () => last}\
;\n\
function play(on) {\n\
\x20 const button = document.querySelector('[data-go=play]'), step = () => current < last ? show(\
current + 1) : play(false);\n\
\x20 clearInterval(playing);\n\
\x20 playing = on ? setInterval(step, +byId('pace').value) : 0;\n\
\x20 button.ariaPressed = on;\n\
\x20 button.ariaLabel = on ? 'Pause' : 'Play';\n\
\x20 if (on) show(current < last ? current + 1 : 0);\n\
}\n\
const go = index => (play(false), show(index));\n\
\n\
function pick(frame) {\n\
\x20 picked = frame;\n\
\x20 if (folds) drawMachine();\n\
\x20 drawFrame(), drawArrows();\n\
}\n\
// The frame that an event is about: in a piece of several frames the one below the pointer.\n\
function frameOf({target, clientX, clientY}) {\n\
\x20 const element = target.closest?.('[data-frame]');\n\
\x20 if (!element) return null;\n\
\x20 const first = +element.dataset.frame, {cell, wide} = size, box = element.getBoundingClientRe\
ct();\n\
\x20 if (!element.matches('.piece') || !clientX) return first;\n\
\x20 const frames = 2 ** pieces.get(first).order, columns = Math.min(wide, frames);\n\
\x20 const place = (from, most) => Math.max(0, Math.min(most - 1, Math.floor(from / cell)));\n\
\x20 return first + columns * place(clientY - box.top, frames / columns) + place(clientX - box.le\
ft, columns);\n\
}\n\
function tip(frame, x, y) {\n\
\x20 const box = byId('tip'), isNew = frame !== hovered;\n\
\x20 hovered = frame;\n\
\x20 if (isNew) drawFrame();\n\
\x20 if (box.hidden = frame === null) return;\n\
\x20 const below = y + 18 + box.offsetHeight < innerHeight;\n\
\x20 box.style.left = `${Math.max(4, Math.min(x + 14, innerWidth - box.offsetWidth - 8))}px`;\n\
\x20 box.style.top = `${below ? y + 18 : Math.max(4, y - box.offsetHeight - 14)}px`;\n\
}\n\
// Of the machine and of each list one piece is reached by the Tab key; arrow keys lead to the ot\
hers.\n\
function rove(group, to, focus) {\n\
\x20 group.querySelector('[tabindex=\"0\"]')?.setAttribute('tabindex', -1);\n\
\x20 to.tabIndex = 0;\n\
\x20 if (group === byId('machine')) cursor = +to.dataset.frame;\n\
\x20 if (focus) to.focus();\n\
}\n\
function moveCursor(frame, focus) {\n\
\x20 const all = [...document.querySelectorAll('.blocks .piece')];\n\
\x20 if (all.length) rove(byId('machine'), all.findLast(piece => +piece.dataset.frame <= frame) ?\
? all[0], focus);\n\
}\n\
function moveFrom(target, key) {\n\
\x20 const group = target.closest('#machine, [data-roving]'), all = [...group.querySelectorAll('.\
piece, button')];\n\
\x20 const far = {ArrowUp: -blockFrames, ArrowDown: blockFrames}[key] ?? 0;\n\
\x20 if (far && target.matches('.piece')) moveCursor(cursor + far, true);\n\
\x20 else rove(group, all[all.indexOf(target) + ({ArrowLeft: -1, ArrowRight: 1}[key] ?? 0)] ?? ta\
rget, true);\n\
}\n\
document.addEventListener('click', event => {\n\
\x20 const active = '[data-go], [data-row], [data-unfold], [data-block]', frame = frameOf(event);\
\n\
\x20 const {dataset = {}} = event.target.closest(active) ?? {};\n\
\x20 if (dataset.go === 'play') play(!playing);\n\
\x20 else if (dataset.go) go(ways[dataset.go]());\n\
\x20 else if (dataset.row) go(+dataset.row);\n\
\x20 else if (dataset.unfold) {\n\
\x20   unfolded.add(dataset.unfold);\n\
\x20   keepFocus(drawPanels), drawFrame();\n\
\x20 } else if (dataset.block) {\n\
\x20   opened.delete(+dataset.block) || opened.add(+dataset.block);\n\
\x20   drawMachine(), drawArrows();\n\
\x20   byId('tiles').children[dataset.block].focus();\n\
\x20 } else if (frame !== null) pick(frame === picked ? null : frame);\n\
\x20 else tip(null);\n\
});\n\
\n\
document.addEventListener('keydown', event => {\n\
\x20 const {key, target} = event;\n\
\x20 if (event.ctrlKey || event.metaKey || event.altKey || target.matches?.('input, select')) ret\
urn;\n\
\x20 const isIn = selector => target.matches?.(selector);\n\
\x20 const way = {ArrowLeft: 'back', ArrowRight: 'next', Home: 'first', End: 'last',\n\
\x20   ...isIn('#lines') ? {ArrowUp: 'back', ArrowDown: 'next'} : {}}[key];\n\
\x20 if (key === 'Escape') pick(null), tip(null);\n\
\x20 else if (key.startsWith('Arrow') && isIn('.piece, [data-roving] button')) moveFrom(target, k\
ey);\n\
\x20 else if (isIn('.piece') && (key === 'Enter' || key === ' ')) pick(cursor === picked ? null :\
\x20cursor);\n\
\x20 else if (way) go(ways[way]());\n\
\x20 else if (key === ' ' && !isIn('button, summary')) play(!playing);\n\
\x20 else return;\n\
\x20 event.preventDefault();\n\
});\n\
document.addEventListener('pointermove', event => {\n\
\x20 const frame = frameOf(event);\n\
\x20 if (frame !== null || hovered !== null) tip(frame, event.clientX, event.clientY);\n\
});\n\
byId('machine').addEventListener('mousedown', event => event.preventDefault());   // keys still s\
tep\n\
document.addEventListener('focusin', ({target}) => {\n\
\x20 const {left, bottom} = target.getBoundingClientRect();\n\
\x20 tip(target.matches('[data-frame]:focus-visible') ? +target.dataset.frame : null, left, botto\
m);\n\
});\n\
const within = ({value, max}) => value === '' ? null : Math.max(0, Math.min(+max, Math.floor(valu\
e)));\n\
byId('slider').addEventListener('input', ({target}) => go(+target.value));\n\
byId('step').addEventListener('change', ({target}) => go(within(target) ?? current));\n\
byId('follow').addEventListener('input', ({target}) => pick(within(target)));\n\
byId('pace').addEventListener('change', () => playing && play(true));\n\
byId('lines').addEventListener('scroll', () => drawLines(false), {passive: true});\n\
addEventListener('beforeprint', () => drawLines(false, Math.max(0, current - 200), current + 200)\
);\n\
addEventListener('afterprint', () => drawLines(true));\n\
\n\
function fromAddress(hash) {\n\
\x20 const words = new URLSearchParams(hash.slice(1)), line = words.get('line');\n\
\x20 show(line === null ? +words.get('step') : rows.findIndex(row => row.line === +line));\n\
}\n\
addEventListener('hashchange', event => fromAddress(new URL(event.newURL).hash));\n\
new ResizeObserver(() => {\n\
\x20 room = byId('scroll').clientWidth - 8;\n\
\x20 if (view) drawMachine(), drawArrows();\n\
\x20 else drawFrameOfAll(), fromAddress(location.hash);\n\
}).observe(byId('scroll'));\n\
";
