// UTF-8: the examples of RFC 3629, section 7, whole and cut behind each byte, and groups 1, 2 and 5.3 of the stress
// test. By RFC 3629 no character has five or six bytes, and FFFE and FFFF are characters. Cut, a text is UTF-8 where a
// character ends.
use crate::listed;
use std::io;

// The examples are A, not identical to, alpha, full stop; hangugeo; nihongo; a byte order mark before U+233B4. 2.1 is
// U+0000, U+0080, U+0800, U+10000, 200000, 4000000; 2.2 U+007F, U+07FF, U+FFFF, 1FFFFF, 3FFFFFF, 7FFFFFFF; 2.3 U+D7FF,
// U+E000, U+FFFD, U+10FFFF, 110000; and cut are U+00A2, U+20AC, U+10348.
pub fn run(rt: &impl Print) -> io::Result<()> {
    listed::run(
        rt,
        b"=RFC 3629 7, examples|\
        +\x41\xE2\x89\xA2\xCE\x91\x2E|\
        +\xED\x95\x9C\xEA\xB5\xAD\xEC\x96\xB4|\
        +\xE6\x97\xA5\xE6\x9C\xAC\xE8\xAA\x9E|\
        +\xEF\xBB\xBF\xF0\xA3\x8E\xB4|.|\
        =RFC 3629 7, the first cut behind each byte|\
        +|+\x41|-\x41\xE2|-\x41\xE2\x89|+\x41\xE2\x89\xA2|-\x41\xE2\x89\xA2\xCE|+\x41\xE2\x89\xA2\xCE\x91|+\x41\xE2\
\x89\xA2\xCE\x91\x2E|.|\
        =RFC 3629 7, the last cut behind each byte|\
        +|-\xEF|-\xEF\xBB|+\xEF\xBB\xBF|-\xEF\xBB\xBF\xF0|-\xEF\xBB\xBF\xF0\xA3|-\xEF\xBB\xBF\xF0\xA3\x8E|+\xEF\xBB\
\xBF\xF0\xA3\x8E\xB4|.|\
        =characters cut behind each byte|\
        -\xC2|+\xC2\xA2|\
        -\xE2|-\xE2\x82|+\xE2\x82\xAC|\
        -\xF0|-\xF0\x90|-\xF0\x90\x8D|+\xF0\x90\x8D\x88|.|\
        =Kuhn 1, correct text|\
        +\xCE\xBA\xE1\xBD\xB9\xCF\x83\xCE\xBC\xCE\xB5|.|\
        =Kuhn 2.1, first of each length|\
        0\x00|+\xC2\x80|+\xE0\xA0\x80|+\xF0\x90\x80\x80|-\xF8\x88\x80\x80\x80|-\xFC\x84\x80\x80\x80\x80|.|\
        =Kuhn 2.2, last of each length|\
        +\x7F|+\xDF\xBF|+\xEF\xBF\xBF|-\xF7\xBF\xBF\xBF|-\xFB\xBF\xBF\xBF\xBF|-\xFD\xBF\xBF\xBF\xBF\xBF|.|\
        =Kuhn 2.3, other boundaries|\
        +\xED\x9F\xBF|+\xEE\x80\x80|+\xEF\xBF\xBD|+\xF4\x8F\xBF\xBF|-\xF4\x90\x80\x80|.|\
        =Kuhn 5.3, noncharacters|\
        +\xEF\xBF\xBE|+\xEF\xBF\xBF|.|",
        true,
    )
}
