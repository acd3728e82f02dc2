//! Written by viewer/build.py from viewer/: do not edit.

/// A part of the page.
pub(crate) const WORDS: &str = "\
// The trace in words. Characters that cannot be seen, or that turn the direction of reading, are\
\x20shown\n\
// by their numbers: the set of `is_hidden` in crates/hp_text/src/escapes.rt.\n\
\n\
const HIDDEN =\n\
\x20 /[\\\\\\u0000-\\u001f\\u007f-\\u00a0\\u00ad\\u061c\\u1680\\u180e\\u2000-\\u200f\\u2028-\\u20\
2f\\u205f-\\u206f\\u3000\\ufeff\\ufff9-\\ufffb]/g;\n\
const shown = text => String(text).replace(HIDDEN, c =>\n\
\x20 c === '\\\\' ? '\\\\\\\\' : `\\\\u${c.charCodeAt(0).toString(16).padStart(4, '0')}`);\n\
const number = n => n.toLocaleString('en');\n\
const count = (n, one, many = `${one}s`) => `${number(n)} ${n === 1 ? one : many}`;\n\
const and = texts => texts.length < 2 ? texts.join('')\n\
\x20 : `${texts.slice(0, -1).join(', ')} and ${texts.at(-1)}`;\n\
const start = text => text.charAt(0).toUpperCase() + text.slice(1);\n\
const short = (frame, order) => order ? `${frame}\\u2013${frame + 2 ** order - 1}` : `${frame}`;\
\n\
const span = (frame, order) => order ? `frames ${frame} to ${frame + 2 ** order - 1}` : `frame ${\
frame}`;\n\
const zoneName = zone => zone === 'normal' ? 'Normal' : 'Movable';\n\
const wishText = wish => wish === 'off' ? 'go offline' : `come online in zone ${zoneName(wish)}`;\
\n\
const pageText = (name, page) => `page ${page} of ${name}`;\n\
\n\
const CLASSES = {\n\
\x20 NU: 'zone Normal, unmovable', NM: 'zone Normal, movable', MM: 'zone Movable',\n\
\x20 IN: 'zone Normal, isolated', IM: 'zone Movable, isolated',\n\
};\n\
\n\
function blockText({state, zone, op, wish}) {\n\
\x20 return (state === 'going' ? 'going offline' : state) + (zone ? ` in zone ${zoneName(zone)}` \
: '')\n\
\x20   + (op ? `; operation ${op} wants it to ${wishText(wish)}` : '');\n\
}\n\
function listText(key) {\n\
\x20 const [first, second, pool] = key.split(' ');\n\
\x20 return pool ? `processor ${second}\\u2019s list ${pool}` : `list ${first} of order ${second}\
`;\n\
}\n\
function placeText({kind, frame, order, who}) {\n\
\x20 const over = order ? `, ${span(frame, order)}` : '';\n\
\x20 return {\n\
\x20   free: `free block of order ${order} on ${who}${over}${who[0] === 'I' ? ', isolated' : ''}`\
,\n\
\x20   listed: `on processor ${who.split(' ')[0]}\\u2019s list ${who.split(' ')[1]}`,\n\
\x20   page: pageText(...who.split(' ')), kernel: `kernel block of order ${order}${over}`,\n\
\x20   offline: 'not in use: its memory block is offline',\n\
\x20   absent: 'not there: its memory block is absent',\n\
\x20 }[kind];\n\
}\n\
const wordsText = words => words.map(([key, word]) => `word ${key.split(' ')[2]} = ${word ?? 0}`)\
.join(', ');\n\
\n\
const REFUSALS = {                        // and faults\n\
\x20 EmptyPlan: 'the plan names no memory block', NoBlock: 'the layout has no such memory block',\
\n\
\x20 NoCpu: 'the layout has no such processor', NoPage: 'the layout gives an owner no page of thi\
s number',\n\
\x20 NoSuchFrame: 'the layout has no such frame', NoWord: 'a page has no word of this number',\n\
\x20 NoOwner: 'there are more names than the layout has owners', BadOrder: 'the layout has no suc\
h order',\n\
\x20 BadAddress: 'the address is no multiple of the size of a memory block',\n\
\x20 AlreadyMapped: 'the page already has a frame', NotMapped: 'the page has no frame',\n\
\x20 NotKernel: 'no kernel block starts at this frame', NotFree: 'frame # is not in the free list\
s',\n\
\x20 NoFrame: 'no free block that may be used is large enough',\n\
\x20 Busy: 'an operation holds memory block #', NotOnline: 'memory block # is not online',\n\
\x20 NotOffline: 'memory block # is not offline', NotAbsent: 'memory block # is there already',\n\
\x20 Twice: 'the plan names memory block # twice', NoOp: 'no live operation has this number',\n\
\x20 Unmovable: 'the kernel uses frame #, and its memory cannot move',\n\
\x20 NothingToMove: 'no page is left in the memory blocks that go',\n\
\x20 Gone: 'there is no such record: it is yet to come, or it was sealed', HistoryFull: 'the hist\
ory is full',\n\
\x20 NoFile: 'there is no such control file', BadText: 'the control file does not take this text'\
,\n\
\x20 ReadOnly: 'the control file can only be read', WriteOnly: 'the control file can only be writ\
ten',\n\
};\n\
const refusal = ([name, n]) => REFUSALS[name]?.replace('#', n) ?? name;\n\
// What a call does, by its verb: `w` are the words after it, `a` those of its reply, `was` gives\
\x20the\n\
// old value of a part's key.\n\
const becameText = row => and(Object.entries(row.change?.blocks ?? {})\n\
\x20 .map(([block, now]) => `memory block ${block} is now ${blockText(now)}`));\n\
const SAYS = {\n\
\x20 kalloc: (w, a) => `The kernel gets ${span(+a[0], +w[0])}.`,\n\
\x20 kfree: (w, a, row, was) => `The kernel gives back ${span(+w[0], was('kernel', w[0]))}.`,\n\
\x20 map: w => `${start(pageText(...w))} gets frame ${memory.pages.get(`${w[0]} ${w[1]}`)}; `\n\
\x20   + 'all its words are 0.',\n\
\x20 unmap: (w, a, row, was) => `${start(pageText(...w))} gives back frame `\n\
\x20   + `${was('pages', `${w[0]} ${w[1]}`)}; its words are gone.`,\n\
\x20 write: (w, a, row, was) => `Word ${w[2]} of ${pageText(...w)} becomes ${w[3]}; it was `\n\
\x20   + `${was('words', w.slice(0, 3).join(' ')) ?? 0}.`,\n\
\x20 read: (w, a) => `Word ${w[2]} of ${pageText(...w)} is ${a[0]}.`,\n\
\x20 drain: w => `Processor ${w[0]}\\u2019s lists go back to the free lists.`,\n\
\x20 drainfor: w => `For operation ${w[0]}, processor ${w[1]}\\u2019s lists go back to the free l\
ists.`,\n\
\x20 online: (w, a, row) => `${start(becameText(row))}; its frames are free.`,\n\
\x20 remove: w => `Memory block ${w[0]} is taken out.`,\n\
\x20 probe: (w, a, row) => `A memory block is plugged in: ${becameText(row)}.`,\n\
\x20 auto: w => `From now on, a memory block that is plugged in becomes ${w[0]}.`,\n\
\x20 begin: (w, a) => `Operation ${a[0]} opens: ` + and(w.flatMap((wish, at) => at % 2 ? []\n\
\x20   : `memory block ${w[at + 1]} is to ${wishText(wish)}`)) + '.'\n\
\x20   + (w.includes('off') ? ' Free frames of a block that goes are no longer handed out.' : '')\
,\n\
\x20 migrate: (w, a) => `${start(pageText(...pieceAt(+a[1]).who.split(' ')))} moves from frame ${\
a[0]} to `\n\
\x20   + `frame ${a[1]}, with its words.`,\n\
\x20 commit: (w, a, row) => `Operation ${w[0]} is carried out in one step: ${becameText(row)}.`,\
\n\
\x20 cancel: (w, a, row) => `Operation ${w[0]} is given up. ` + (row.answer === 'restored'\n\
\x20   ? 'Since its begin only its own drains and migrations changed anything, so all is as befor\
e it.'\n\
\x20   : 'Its memory blocks are as before its begin; pages that moved stay where they are.'),\n\
\x20 undo: (w, a) => a[0] === '0' ? `There is no step after record ${w[0]} to take back.`\n\
\x20   : `Takes back ${count(+a[0], 'step')} after record ${w[0]}, the latest first. The state is\
\x20that `\n\
\x20     + 'from before them, down to the order of the lists.',\n\
};\n\
\n\
function outputText({output, sealed}) {\n\
\x20 const [what, how, ...rest] = output.split(' ');\n\
\x20 if (sealed !== undefined) return `The history, ${count(sealed, 'record')}, is handed out and\
\x20starts anew. `\n\
\x20   + 'The state stays; what was before can no longer be undone.';\n\
\x20 if (what !== 'plan:') return how === 'fault' ? `No record is made: ${refusal(rest)}.`\n\
\x20   : 'Reads a control file. This makes no record and changes nothing.';\n\
\x20 const why = rest[0] === '-' ? '' : ` Its last refusal was ${rest.slice(0, -1).join(' ')}.`;\
\n\
\x20 return {\n\
\x20   done: 'The plan is carried out.', undone: 'The plan ends: another call ended its operation\
.',\n\
\x20   refused: `The plan is refused: ${refusal(rest)}.`,\n\
\x20   cancelled: `The plan has used up its turns and is cancelled.${why}`,\n\
\x20   left: `The plan stops, as no record is made: ${refusal(rest.slice(1))}.`,\n\
\x20 }[how];\n\
}\n\
function sayRow(row, was) {\n\
\x20 const texts = [];\n\
\x20 if (row.line === 0) texts.push('The memory at boot.');\n\
\x20 if (row.answer) {\n\
\x20   const [verb, ...words] = row.call.split(' '), [how, ...more] = row.answer.split(' ');\n\
\x20   texts.push(how === 'refused' ? `Refused: ${refusal(more)}. Nothing changes.`\n\
\x20     : SAYS[verb]?.(words, more, row, was) ?? '');\n\
\x20 }\n\
\x20 if (row.output) texts.push(outputText(row));\n\
\x20 return texts.join(' ') || 'A driver carries this plan out by the calls that follow.';\n\
}\n\
function sayCommit(op) {\n\
\x20 const left = inTheWay(op), reply = `A commit now would reply ${commitReply(op)}`;\n\
\x20 const of = (kind, ...words) => count(left.filter(piece => piece.kind === kind).length, ...wo\
rds);\n\
\x20 const ways = [of('page', 'page'), of('kernel', 'kernel block'),\n\
\x20   of('listed', 'frame on a processor\\u2019s list', 'frames on processors\\u2019 lists')];\n\
\x20 return left.length ? `${reply}. In the way: ${and(ways.filter(text => !text.startsWith('0 ')\
))}.`\n\
\x20   : `${reply}: nothing is in the way.`;\n\
}\n\
function sayCancel(op) {\n\
\x20 const reply = cancelReply(op), sealed = seals[reached] >= op;\n\
\x20 const why = {restored: ': only its own drains and migrations came after its begin',\n\
\x20   released: sealed ? ': its begin was sealed' : ': other steps came after its begin'}[reply]\
\x20?? '';\n\
\x20 return `A cancel now would reply ${reply}${why}.`;\n\
}\n\
const turn = (was, now) => `${was ?? 'none'} \\u2192 ${now ?? 'none'}`;\n\
const where = after => after === null ? 'in front' : `behind ${after}`;\n\
const DELTAS = {\n\
\x20 link: (list, frame, after) => `frame ${frame} goes onto ${listText(list)}, ${where(after)}`,\
\n\
\x20 unlink: (list, frame, after) => `frame ${frame} leaves ${listText(list)}; it was ${where(aft\
er)}`,\n\
\x20 kind: (pageblock, was, now) => `pageblock ${pageblock}: ${turn(was, now)}`,\n\
\x20 kernel: (frame, was, now) => `order of the kernel block at frame ${frame}: ${turn(was, now)}\
`,\n\
\x20 map: (name, page, was, now) => `frame of ${pageText(name, page)}: ${turn(was, now)}`,\n\
\x20 swap: (a, b) => `frames ${a} and ${b} exchange their words`,\n\
\x20 word: (frame, index, was, now) => `word ${index} of frame ${frame}: ${turn(was, now)}`,\n\
\x20 emptied: (frame, words) => `frame ${frame} loses its words, ${words.join(' ')}`,\n\
\x20 row: (block, was, now) => `memory block ${block}: ${turn(blockText(was), blockText(now))}`,\
\n\
\x20 auto: (was, now) => `auto_online_blocks: ${turn(was, now)}`,\n\
};\n\
";
