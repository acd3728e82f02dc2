//! Written by viewer/build.py from viewer/: do not edit.

/// A part of the page.
pub(crate) const HEAD: &str = "\
<!doctype html>\n\
<html lang=\"en\">\n\
<head>\n\
<meta charset=\"utf-8\">\n\
<meta http-equiv=\"Content-Security-Policy\"\n\
\x20content=\"default-src 'none'; style-src 'sha256-1HC7jdE1SLRbNij++unxyHSFwf7//6o6GCSS5iXKEhA='\
; script-src 'sha256-sFIwfwTBJWltwuZ/p/5fpJ80/sqJjaT0jYIy7xdwbm8='\">\n\
<meta name=\"generator\" content=\"hotplug_lab trace --html\">\n\
<meta name=\"viewport\" content=\"width=device-width, initial-scale=1\">\n\
<title>Memory hotplug trace</title>\n\
<style>";

/// A part of the page.
pub(crate) const BODY: &str = "\
</style>\n\
</head>\n\
<body>\n\
<header>\n\
\x20 <div class=\"title\"><h1>Memory hotplug trace</h1><p id=\"layout\"></p></div>\n\
\x20 <div class=\"controls\" role=\"group\" aria-label=\"Steps\">\n\
\x20   <button data-go=\"first\" title=\"First step (Home)\" aria-label=\"First step\"><svg viewB\
ox=\"0 0 16 16\" aria-hidden=\"true\"><path d=\"M3 3h2v10H3zM13 3v10L6 8z\"/></svg></button>\n\
\x20   <button data-go=\"back\" title=\"Previous step (left arrow)\" aria-label=\"Previous step\"\
><svg viewBox=\"0 0 16 16\" aria-hidden=\"true\"><path d=\"M12 3v10L4 8z\"/></svg></button>\n\
\x20   <button data-go=\"play\" title=\"Play or pause (space)\" aria-label=\"Play\" aria-pressed=\
\"false\"><svg viewBox=\"0 0 16 16\" aria-hidden=\"true\"><path class=\"on\" d=\"M4 2.5v11L14 8z\
\"/><path class=\"off\" d=\"M4 3h3v10H4zM9 3h3v10H9z\"/></svg></button>\n\
\x20   <button data-go=\"next\" title=\"Next step (right arrow)\" aria-label=\"Next step\"><svg v\
iewBox=\"0 0 16 16\" aria-hidden=\"true\"><path d=\"M4 3v10l8-5z\"/></svg></button>\n\
\x20   <button data-go=\"last\" title=\"Last step (End)\" aria-label=\"Last step\"><svg viewBox=\
\"0 0 16 16\" aria-hidden=\"true\"><path d=\"M11 3h2v10h-2zM3 3v10l7-5z\"/></svg></button>\n\
\x20   <div class=\"track\"><svg id=\"ticks\" preserveAspectRatio=\"none\" aria-hidden=\"true\"><\
/svg>\n\
\x20     <input id=\"slider\" type=\"range\" min=\"0\" value=\"0\" aria-label=\"Step\">\n\
\x20   </div>\n\
\x20   <label>step <input id=\"step\" type=\"number\" min=\"0\"></label><span id=\"steps\"></span\
>\n\
\x20   <select id=\"pace\" title=\"Pace of play\" aria-label=\"Pace of play\"><option value=\"240\
0\">slow</option>\n\
\x20     <option value=\"1200\" selected>steady</option><option value=\"400\">fast</option></sele\
ct>\n\
\x20 </div>\n\
</header>\n\
<main>\n\
\x20 <section id=\"list\" aria-labelledby=\"list-title\">\n\
\x20   <h2 id=\"list-title\">Lines and replies</h2>\n\
\x20   <ol id=\"lines\" role=\"listbox\" tabindex=\"0\" aria-labelledby=\"list-title\"></ol>\n\
\x20 </section>\n\
\x20 <section id=\"stage\" aria-label=\"The current step\">\n\
\x20   <div id=\"now\"><p id=\"asked\"></p><p id=\"says\" aria-live=\"polite\"></p><pre id=\"outp\
ut\" hidden></pre>\n\
\x20     <ul id=\"changes\" aria-label=\"What changed\"></ul></div>\n\
\x20   <h2>Memory after this step</h2>\n\
\x20   <div id=\"scroll\"><div id=\"machine\"></div></div>\n\
\x20   <div id=\"tiles\" role=\"group\" aria-label=\"All memory blocks\"></div>\n\
\x20   <ul id=\"legend\" aria-label=\"Legend\"></ul>\n\
\x20   <p id=\"keys\" class=\"quiet\">Keys: left and right step, Home and End go to the ends, spa\
ce plays. Tab leads into\n\
\x20     the memory and each list; there arrows go from frame to frame, Enter follows one, Escape\
\x20lets go.</p>\n\
\x20   <p id=\"made\" class=\"quiet\">Written by <code>hotplug_lab trace --html</code>, form <spa\
n id=\"form\"></span>.</p>\n\
\x20 </section>\n\
\x20 <aside id=\"panels\" aria-label=\"Details of the current step\">\n\
\x20   <section><h2><label>Frame <input id=\"follow\" type=\"number\" min=\"0\"></label></h2><div\
\x20id=\"frame\"></div></section>\n\
\x20   <section><h2>Operations</h2><div id=\"operations\"></div></section>\n\
\x20   <section><h2>Free lists <small>front first; + in, &minus; out, ~ moved</small></h2><div id\
=\"free\"></div></section>\n\
\x20   <section><h2>Processors&rsquo; lists <small>front first</small></h2><div id=\"cpus\"></div\
></section>\n\
\x20   <section><h2>Journal entry</h2><div id=\"journal\"></div></section>\n\
\x20   <section><h2>Undo</h2><div id=\"undo\"></div></section>\n\
\x20 </aside>\n\
</main>\n\
<div id=\"tip\" role=\"tooltip\" hidden></div>\n\
<noscript><p>This page needs JavaScript, which is switched off.</p></noscript>\n\
<script type=\"application/x-ndjson\" id=\"trace\">";

/// A part of the page.
pub(crate) const MIDDLE: &str = "\
</script>\n\
<script>";

/// A part of the page.
pub(crate) const END: &str = "\
</script>\n\
</body>\n\
</html>\n\
";
